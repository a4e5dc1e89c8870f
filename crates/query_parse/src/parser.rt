//! Reading tokens from left to right.
ghost use Rattle.std.specs.Prelude.{◌≡◌, ◌≤◌, ◌+◌, ◌<◌, [], ◌∷◌, ◌++◌, Ok, Err, Some, None, IfOk, OnOk, length, MatchOption};
ghost use Rattle.query_meaning.specs.Agreement.{agrees};
ghost use Rattle.query_meaning.specs.declared.expr.Expr.{Expr, roll-Expr};
ghost use Rattle.query_meaning.specs.declared.expr.Expr.TheOpen as level;
ghost use Rattle.query_parse.specs.Grammar.{joined_and, joined_or, test_of, turned};
ghost use Rattle.query_parse.specs.Parsing.{fresh, start, negated, group_expr, with_unit, behind_unit, in_phase, next, finished, finished_in, with_test, unit_next, relation_next, literal_next, turned_next, pick_next, whole_next, may_open, not_opened, group_opened, Goes, Reached};

use crate::fault::{ParseEnd, QueryFault, QueryWhat};
use crate::lexeme::Lexeme;
use query_meaning::{Expr, Exprs, Literal, Pick, Rel, Test, agrees};
use sqlite_items::{Boxed, Items};
use std::alloc::{AllocError, Global};
use std::mem;

/// At most so many constructs are open at once.
const MOST_OPEN: u32 = 64;

/// What was read of the whole text, or of an open parenthesis.
#[derive(Drop)]
pub struct Group {
    /// The members of `||` before the last.
    pub ors: Exprs,
    /// The members of `&&` in the last.
    pub ands: Exprs,
    /// How many `!` stand before the unit to come.
    pub nots: u32,
}

/// What was read of the unit to come.
#[derive(Drop)]
pub enum Phase {
    /// Nothing.
    Start,
    Picked(Pick),
    Related(Pick, Rel),
    /// A literal that begins at the offset.
    Valued(Literal, u32),
    /// A literal that begins at the offset, and a relation.
    Reversed(Literal, u32, Rel),
    /// All of it.
    Whole,
}

/// How far a text was read.
#[derive(Drop)]
pub struct Parser {
    /// The groups around the last, the outermost first.
    pub outer: Items<Group>,
    /// The last group.
    pub group: Group,
    /// How many `!` and parentheses are open.
    pub depth: u32,
    pub phase: Phase,
}

impl Group {
    fn new(alloc: Global) -> Group
        ensures { result ≡ fresh }
    {
        Group {
            ors: Exprs::new(alloc),
            ands: Exprs::new(alloc),
            nots: 0,
        }
    }

    // What the group stands for when it ends.
    fn into_expr(self) -> Result<Expr, AllocError>
        ensures { IfOk result (λ expr. expr ≡ group_expr self) }
    {
        let Group { ors, ands, .. } = self;
        let mut ors = ors;
        ors.push(joined_and(ands))?;
        Ok(joined_or(ors))
    }
}

impl Parser {
    /// A parser that has read nothing.
    pub fn new(alloc: Global) -> Parser
        ensures { result ≡ start }
    {
        Parser {
            outer: Items::new(alloc),
            group: Group::new(alloc),
            depth: 0,
            phase: Phase::Start,
        }
    }

    /// Takes the token at an offset, which is not the end.
    pub fn take(&mut self, alloc: Global, at: u32, lexeme: Lexeme) -> Result<(), ParseEnd>
        ensures { Goes (next self.old self.old.phase at lexeme) self.new result }
    {
        match mem::replace(&mut self.phase, Phase::Start) {
            Phase::Start => self.take_unit(alloc, at, lexeme),
            Phase::Picked(pick) => self.take_relation(pick, at, lexeme),
            Phase::Related(pick, rel) => self.take_literal(alloc, pick, rel, at, lexeme),
            Phase::Valued(literal, from) => self.take_turned(literal, from, at, lexeme),
            Phase::Reversed(literal, from, rel) => {
                self.take_pick(alloc, literal, from, rel, at, lexeme)
            }
            Phase::Whole => self.take_behind(alloc, at, lexeme),
        }
    }

    fn take_unit(&mut self, alloc: Global, at: u32, lexeme: Lexeme) -> Result<(), ParseEnd>
        ensures { Goes (unit_next self.old at lexeme) self.new result }
    {
        match lexeme {
            Lexeme::Not => self.open_not(at),
            Lexeme::Open => self.open_group(alloc, at),
            Lexeme::Pick(pick) => {
                self.phase = Phase::Picked(pick);
                Ok(())
            }
            Lexeme::Literal(literal) => {
                self.phase = Phase::Valued(literal, at);
                Ok(())
            }
            Lexeme::Bad => Err(fault(at, QueryWhat::BadLiteral)),
            Lexeme::Rel(_) => Err(fault(at, QueryWhat::Unexpected)),
            Lexeme::And | Lexeme::Or | Lexeme::Close => Err(fault(at, QueryWhat::Unexpected)),
            Lexeme::Unknown | Lexeme::End => Err(fault(at, QueryWhat::Unexpected)),
        }
    }

    // Whether one more construct may be open. The `!` before a unit are among those that are open, so the second test never
    // decides: it is there so that the count of `!` is known to stay in its type.
    fn may_open(&self) -> bool
        ensures { result ≡ may_open self.now }
    {
        self.depth < MOST_OPEN && self.group.nots < MOST_OPEN
    }

    fn open_not(&mut self, at: u32) -> Result<(), ParseEnd>
        ensures { Goes (not_opened self.old at) self.new result }
    {
        if !self.may_open() {
            return Err(fault(at, QueryWhat::TooDeep));
        }
        self.group.nots += 1;
        self.depth += 1;
        self.phase = Phase::Start;
        Ok(())
    }

    fn open_group(&mut self, alloc: Global, at: u32) -> Result<(), ParseEnd>
        ensures { Goes (group_opened self.old at) self.new result }
    {
        if !self.may_open() {
            return Err(fault(at, QueryWhat::TooDeep));
        }
        let group = mem::replace(&mut self.group, Group::new(alloc));
        self.outer.push(group)?;
        self.depth += 1;
        self.phase = Phase::Start;
        Ok(())
    }

    fn take_relation(&mut self, pick: Pick, at: u32, lexeme: Lexeme) -> Result<(), ParseEnd>
        ensures { Goes (relation_next self.old pick at lexeme) self.new result }
    {
        match lexeme {
            Lexeme::Rel(rel) => {
                self.phase = Phase::Related(pick, rel);
                Ok(())
            }
            Lexeme::Bad => Err(fault(at, QueryWhat::BadLiteral)),
            Lexeme::Pick(_) | Lexeme::Literal(_) => Err(fault(at, QueryWhat::Unexpected)),
            Lexeme::And | Lexeme::Or | Lexeme::Not => Err(fault(at, QueryWhat::Unexpected)),
            Lexeme::Open | Lexeme::Close => Err(fault(at, QueryWhat::Unexpected)),
            Lexeme::Unknown | Lexeme::End => Err(fault(at, QueryWhat::Unexpected)),
        }
    }

    fn take_literal(
        &mut self,
        alloc: Global,
        pick: Pick,
        rel: Rel,
        at: u32,
        lexeme: Lexeme,
    ) -> Result<(), ParseEnd>
        ensures { Goes (literal_next self.old pick rel at lexeme) self.new result }
    {
        match lexeme {
            Lexeme::Literal(literal) => self.end_test(alloc, at, Test { pick, rel, literal }),
            Lexeme::Bad => Err(fault(at, QueryWhat::BadLiteral)),
            Lexeme::Pick(_) | Lexeme::Rel(_) => Err(fault(at, QueryWhat::Unexpected)),
            Lexeme::And | Lexeme::Or | Lexeme::Not => Err(fault(at, QueryWhat::Unexpected)),
            Lexeme::Open | Lexeme::Close => Err(fault(at, QueryWhat::Unexpected)),
            Lexeme::Unknown | Lexeme::End => Err(fault(at, QueryWhat::Unexpected)),
        }
    }

    fn take_turned(
        &mut self,
        literal: Literal,
        from: u32,
        at: u32,
        lexeme: Lexeme,
    ) -> Result<(), ParseEnd>
        ensures { Goes (turned_next self.old literal from at lexeme) self.new result }
    {
        match lexeme {
            Lexeme::Rel(rel) => {
                self.phase = Phase::Reversed(literal, from, rel);
                Ok(())
            }
            Lexeme::Bad => Err(fault(at, QueryWhat::BadLiteral)),
            Lexeme::Pick(_) | Lexeme::Literal(_) => Err(fault(at, QueryWhat::Unexpected)),
            Lexeme::And | Lexeme::Or | Lexeme::Not => Err(fault(at, QueryWhat::Unexpected)),
            Lexeme::Open | Lexeme::Close => Err(fault(at, QueryWhat::Unexpected)),
            Lexeme::Unknown | Lexeme::End => Err(fault(at, QueryWhat::Unexpected)),
        }
    }

    fn take_pick(
        &mut self,
        alloc: Global,
        literal: Literal,
        from: u32,
        rel: Rel,
        at: u32,
        lexeme: Lexeme,
    ) -> Result<(), ParseEnd>
        ensures { Goes (pick_next self.old literal from rel at lexeme) self.new result }
    {
        match lexeme {
            Lexeme::Pick(pick) => {
                let rel = turned(rel);
                self.end_test(alloc, from, Test { pick, rel, literal })
            }
            Lexeme::Bad => Err(fault(at, QueryWhat::BadLiteral)),
            Lexeme::Rel(_) | Lexeme::Literal(_) => Err(fault(at, QueryWhat::Unexpected)),
            Lexeme::And | Lexeme::Or | Lexeme::Not => Err(fault(at, QueryWhat::Unexpected)),
            Lexeme::Open | Lexeme::Close => Err(fault(at, QueryWhat::Unexpected)),
            Lexeme::Unknown | Lexeme::End => Err(fault(at, QueryWhat::Unexpected)),
        }
    }

    // Behind a unit.
    fn take_behind(&mut self, alloc: Global, at: u32, lexeme: Lexeme) -> Result<(), ParseEnd>
        ensures { Goes (whole_next self.old at lexeme) self.new result }
    {
        match lexeme {
            Lexeme::And => {
                self.phase = Phase::Start;
                Ok(())
            }
            Lexeme::Or => self.end_conjunction(alloc),
            Lexeme::Close => self.close_group(alloc, at),
            Lexeme::Bad => Err(fault(at, QueryWhat::BadLiteral)),
            Lexeme::Pick(_) | Lexeme::Rel(_) => Err(fault(at, QueryWhat::Unexpected)),
            Lexeme::Literal(_) => Err(fault(at, QueryWhat::Unexpected)),
            Lexeme::Not | Lexeme::Open => Err(fault(at, QueryWhat::Unexpected)),
            Lexeme::Unknown | Lexeme::End => Err(fault(at, QueryWhat::Unexpected)),
        }
    }

    fn end_conjunction(&mut self, alloc: Global) -> Result<(), ParseEnd>
        ensures { Goes (whole_next self.old 0 Lexeme.Or) self.new result }
    {
        let ands = mem::replace(&mut self.group.ands, Exprs::new(alloc));
        self.group.ors.push(joined_and(ands))?;
        self.group.nots = 0;
        self.phase = Phase::Start;
        Ok(())
    }

    #[tactic(auto, using(crate::proofs::ParsingLemmas::last_group))]
    fn close_group(&mut self, alloc: Global, at: u32) -> Result<(), ParseEnd>
        ensures { Goes (whole_next self.old at Lexeme.Close) self.new result }
    {
        let Some(outer) = self.outer.pop() else {
            return Err(fault(at, QueryWhat::Unexpected));
        };
        let group = mem::replace(&mut self.group, outer);
        self.depth = self.depth.saturating_sub(1);
        self.end_unit(alloc, group.into_expr()?)
    }

    fn end_test(&mut self, alloc: Global, at: u32, test: Test) -> Result<(), ParseEnd>
        ensures { Goes (with_test self.old at test) self.new result }
    {
        if !agrees(&test) {
            return Err(fault(at, QueryWhat::KindClash));
        }
        self.end_unit(alloc, Expr::Test(test))
    }

    // A unit is whole, and so are the `!` before it.
    fn end_unit(&mut self, alloc: Global, expr: Expr) -> Result<(), ParseEnd>
        ensures { Goes (Ok (behind_unit self.old.outer self.old.group self.old.depth expr)) self.new result }
    {
        let nots = self.group.nots;
        self.group.ands.push(negated(alloc, expr, nots)?)?;
        self.group.nots = 0;
        self.depth = self.depth.saturating_sub(nots);
        self.phase = Phase::Whole;
        Ok(())
    }

    /// The expression of the whole text, which ends at the offset.
    pub fn finish(self, at: u32) -> Result<Expr, ParseEnd>
        ensures { Reached (finished self self.phase at) result }
    {
        let Parser {
            outer,
            group,
            phase,
            ..
        } = self;
        match phase {
            Phase::Whole => finish_group(&outer, group, at),
            Phase::Start => Err(fault(at, QueryWhat::Unexpected)),
            Phase::Picked(_) => Err(fault(at, QueryWhat::Unexpected)),
            Phase::Related(_, _) => Err(fault(at, QueryWhat::Unexpected)),
            Phase::Valued(_, _) => Err(fault(at, QueryWhat::Unexpected)),
            Phase::Reversed(_, _, _) => Err(fault(at, QueryWhat::Unexpected)),
        }
    }
}

fn finish_group(outer: &Items<Group>, group: Group, at: u32) -> Result<Expr, ParseEnd>
    ensures { Reached (finished_in outer.now group at) result }
{
    if !outer.is_empty() {
        return Err(fault(at, QueryWhat::Unexpected));
    }
    Ok(group.into_expr()?)
}

/// The fault at an offset.
pub(crate) fn fault(at: u32, what: QueryWhat) -> ParseEnd
    ensures { result ≡ ParseEnd.Fault (record { at = at; what = what }) }
{
    ParseEnd::Fault(QueryFault { at, what })
}

// The relation of the reversed form.
fn turned(rel: Rel) -> Rel
    ensures { result ≡ turned rel }
{
    match rel {
        Rel::Eq => Rel::Eq,
        Rel::Ne => Rel::Ne,
        Rel::Lt => Rel::Gt,
        Rel::Le => Rel::Ge,
        Rel::Gt => Rel::Lt,
        Rel::Ge => Rel::Le,
        Rel::Within => Rel::Contains,
        Rel::Contains => Rel::Within,
    }
}

// The expression behind so many `!`.
#[tactic(auto, using(crate::proofs::ParsingLemmas::negated_more))]
fn negated(alloc: Global, expr: Expr, nots: u32) -> Result<Expr, AllocError>
    ensures { IfOk result (λ whole. whole ≡ negated nots expr) }
{
    let mut whole = expr;
    for _ in 0..nots {
        whole = Expr::Not(Boxed::new(alloc, whole)?);
    }
    Ok(whole)
}

fn joined_and(members: Exprs) -> Expr
    ensures { result ≡ joined_and members }
{
    let mut members = members;
    if members.len() == 1 {
        if let Some(member) = members.pop() {
            return member;
        }
    }
    Expr::And(members)
}

fn joined_or(members: Exprs) -> Expr
    ensures { result ≡ joined_or members }
{
    let mut members = members;
    if members.len() == 1 {
        if let Some(member) = members.pop() {
            return member;
        }
    }
    Expr::Or(members)
}
