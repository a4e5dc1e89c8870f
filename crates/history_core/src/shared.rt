//! Indexes that are shared.
ghost use Rattle.std.specs.Prelude.{◌≡◌, IfOk};
ghost use Rattle.std.specs.Arc.{arc_value};

use partition::{Fragment, Sealed};
use std::alloc::AllocError;
use std::marker::Model;
use std::sync::Arc;

/// The index of a batch.
#[derive(Drop)]
pub(crate) struct SharedFragment {
    fragment: Arc<Fragment>,
}

impl Model for SharedFragment {
    ghost use Rattle.std.specs.Arc.{arc_value};
    ghost use Rattle.event_history.specs.Pieces.{Piece};

    ghost Value = { Piece };

    ghost view = { λ s. arc_value s.fragment };
}

impl SharedFragment {
    pub(crate) fn new(fragment: Arc<Fragment>) -> SharedFragment
        ensures { result ≡ arc_value fragment }
    {
        SharedFragment { fragment }
    }

    /// One share more.
    pub(crate) fn share(&self) -> Result<Arc<Fragment>, AllocError>
        ensures { IfOk result (λ fragment. arc_value fragment ≡ self.now) }
    {
        self.fragment.clone()
    }
}

/// The merged index of a group.
#[derive(Drop)]
pub(crate) struct SharedSealed {
    sealed: Arc<Sealed>,
}

impl Model for SharedSealed {
    ghost use Rattle.std.specs.Arc.{arc_value};
    ghost use Rattle.event_history.specs.Pieces.{Piece};

    ghost Value = { Piece };

    ghost view = { λ s. arc_value s.sealed };
}

impl SharedSealed {
    pub(crate) fn new(sealed: Arc<Sealed>) -> SharedSealed
        ensures { result ≡ arc_value sealed }
    {
        SharedSealed { sealed }
    }

    /// One share more.
    pub(crate) fn share(&self) -> Result<Arc<Sealed>, AllocError>
        ensures { IfOk result (λ sealed. arc_value sealed ≡ self.now) }
    {
        self.sealed.clone()
    }
}
