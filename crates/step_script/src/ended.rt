//! What a command leaves.
ghost use Rattle.std.specs.Prelude.{◌≡◌, [], ◌∷◌, ◌++◌, OnOk, OnErr, None};

use history_core::Store;
use importer::SourceEnd;
use input_report::Status;
use std::alloc::{AllocError, Global};
use std::marker::Model;
use vast_io::Opener;
use vast_value::Seq;

/// How each source that was opened ended, in order. Contracts see the list.
#[derive(Drop)]
pub struct Ends<S: Drop> {
    items: Vec<SourceEnd<S>>,
}

impl<S: Drop> Model for Ends<S> {
    ghost use Rattle.std.specs.Prelude.{List};
    ghost use Rattle.importer.specs.declared.ends.SourceEnd.{SourceEnd as End};

    ghost Value = { List (End S) };

    ghost view = { λ ends. ends.items.items };
}

impl<S: Drop> Ends<S> {
    /// The empty list.
    pub fn new(alloc: Global) -> Ends<S>
        ensures { result ≡ [] }
    {
        Ends {
            items: Vec::new(alloc),
        }
    }

    /// The list of these ends.
    pub fn of(items: Vec<SourceEnd<S>>) -> Ends<S>
        ensures { result ≡ items.items }
    {
        Ends { items }
    }

    /// Puts an end behind the others.
    pub fn push(&mut self, item: SourceEnd<S>) -> Result<(), AllocError>
        ensures ok { OnOk result (self.new ≡ self.old ++ item ∷ []) }
        ensures err { OnErr result (self.new ≡ self.old) }
    {
        self.items.push(item)?;
        Ok(())
    }

    /// The ends, to be taken apart.
    pub fn into_items(self) -> Vec<SourceEnd<S>>
        ensures { result.items ≡ self }
    {
        self.items
    }

    /// The ends.
    pub fn as_slice(&self) -> &[SourceEnd<S>]
        ensures { result.now ≡ self.now }
    {
        self.items.as_slice()
    }
}

/// Numbers of queries.
pub type Numbers = Seq<u32>;

/// How a command ended.
#[derive(Drop)]
pub struct Ended<O: Opener> {
    pub status: Status,
    /// The store at the end, whose entries are its history. It is `None` for a command that has none, and may be `None`
    /// under `Memory`.
    pub store: Option<Store>,
    /// The sources that were opened, in order. Under `Memory` there may be fewer.
    pub ends: Ends<O::Src>,
    /// The opened source of a script, as it was left. It is `None` where no script was opened, and may be `None` under
    /// `Memory`.
    pub script: Option<O::Src>,
    /// The number of the query of each label.
    pub queries: Numbers,
}

impl<O: Opener> Ended<O> {
    /// Where memory was wanting.
    pub fn out_of_memory(alloc: Global) -> Ended<O>
        ensures status { result.status ≡ Status.Memory }
        ensures store { result.store ≡ None }
        ensures ends { result.ends ≡ [] }
        ensures script { result.script ≡ None }
        ensures queries { result.queries ≡ [] }
    {
        Ended {
            status: Status::Memory,
            store: None,
            ends: Ends::new(alloc),
            script: None,
            queries: Numbers::new(alloc),
        }
    }
}
