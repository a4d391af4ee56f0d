//! The first fault of a text of modules.
ghost use Rattle.std.specs.Prelude.{◌≡◌, ◌∷◌, ◌++◌, ℕ, List, [], map, IfOk, OnOk, None};
ghost use Rattle.ci_reading.specs.Tokens.{AreSymbols, at};
ghost use Rattle.ci_vread.specs.Lexicon.{unit_format};
ghost use Rattle.ci_vread.specs.Grammar.{Placed, Event, Finish, Goes, units, reads, made};
ghost use Rattle.ci_vread.specs.Rules.{Rule, nothing, rules_from, rules_at};
ghost use Rattle.ci_vread.specs.private.Scanned.{symbol_by, placed_of};
ghost use Rattle.ci_vread.specs.private.Tables.{role_of, part_of, due_of};
ghost use Rattle.ci_vread.specs.private.Checked.{IsBounded};
ghost use Rattle.ci_vread.specs.private.Led.{LeadsWith, IsAt, IsDue, IsOn, IsFresh, IsBehind, IsAfter, IsAnswer};
ghost use Rattle.ci_vread.specs.private.Led.{AscendFrom};

use crate::grammar::{Part, Phrase, Role};
use crate::roles::{fits, is_kind};
use crate::seen::{Seen, least};
use crate::tokens::{Kind, Token};
use std::alloc::{AllocError, Global};

/// Where a text breaks a rule first: the kind of the rule, and how many bytes stand before the token that breaks it.
#[derive(Clone, Copy)]
pub(crate) struct Fault {
    pub kind: u8,
    pub place: u32,
}

/// What is due.
#[derive(Clone, Copy)]
enum Due {
    /// A token in this role.
    Role(Role),
    /// Nothing: the text may end.
    Nothing,
    /// Something behind what was read, but the text ends.
    Missing,
}

/// What a token leads to.
#[derive(Clone, Copy)]
enum Step {
    On,
    /// The text ends, and keeps all rules.
    Whole,
    Bad(Fault),
}

/// How far a text was checked.
#[derive(Drop)]
struct Checker<'a> {
    /// The parts that are due, the next one last.
    due: Vec<Part>,
    seen: Seen<'a>,
    /// Where the last token stands, and the kind of the rule that is broken there.
    last: u32,
    broken: Option<u8>,
}

/// Puts the parts in front of those that are due.
fn put_first(due: &mut Vec<Part>, parts: &[Part]) -> Result<(), AllocError>
    ensures { OnOk result (due_of due.new.items ≡ map part_of parts.now ++ due_of due.old.items) }
{
    for i in (0..parts.len()).rev() {
        due.push(parts[i])?;
    }
    Ok(())
}

impl<'a> Checker<'a> {
    /// At the beginning of a text.
    fn new(alloc: Global, text: &'a [u8]) -> Result<Checker<'a>, AllocError>
        ensures at { IfOk result (λ checker. (symbols : List Placed) (events : List Event) (finish : Finish)
            → Goes 0 (made units ∷ []) symbols events finish
            → IsAt (rules_from nothing events ++ rules_at finish) symbols checker) }
        ensures fresh { IfOk result IsFresh }
        ensures bounded { IfOk result (λ checker. IsBounded checker.seen checker.broken) }
    {
        let mut due = Vec::new(alloc);
        due.push(Part::Made(Phrase::Units))?;
        Ok(Checker {
            due,
            seen: Seen::new(alloc, text),
            last: 0,
            broken: None,
        })
    }

    /// Takes phrases apart, and notes what ended, up to what is due before a symbol of this kind.
    fn next_due(&mut self, next: Kind) -> Result<Due, AllocError>
        requires { IsBounded self.old.seen self.old.broken }
        ensures due { IfOk result (λ due. (rules : List Rule) (symbols : List Placed) (place : ℕ) (bytes : List ℕ)
            → IsAt rules (at place (symbol_by next bytes) ∷ symbols) self.old
            → IsDue rules (at place (symbol_by next bytes) ∷ symbols) (symbol_by next bytes) due self.new) }
        ensures last { self.new.last ≡ self.old.last }
        ensures bounded { OnOk result (IsBounded self.new.seen self.new.broken) }
        ensures fresh { OnOk result (IsFresh self.old → self.new.broken ≡ None) }
    {
        while let Some(part) = self.due.pop() {
            match part {
                Part::Reads(role) => return Ok(Due::Role(role)),
                Part::Ends(what) => {
                    let broken = self.seen.end(what)?;
                    self.broken = least(self.broken, broken);
                }
                Part::Made(phrase) => {
                    if phrase.is_cut_off(next) {
                        return Ok(Due::Missing);
                    }
                    put_first(&mut self.due, phrase.parts(next))?;
                }
            }
        }
        Ok(Due::Nothing)
    }

    /// Takes a token, or what ends the tokens, where one is due in this role and no rule is broken.
    fn take(
        &mut self,
        alloc: Global,
        role: Role,
        text: &'a [u8],
        token: Token,
    ) -> Result<Step, AllocError>
        requires bounded { IsBounded self.old.seen self.old.broken }
        requires kept { self.old.broken ≡ None }
        ensures after { IfOk result (λ step. (rules : List Rule) (symbols : List Placed)
            → AscendFrom 0 (placed_of text.now token ∷ symbols)
            → LeadsWith rules (placed_of text.now token ∷ symbols) (reads (role_of role) ∷ []) self.old
            → IsAfter rules symbols step self.new) }
        ensures bounded { IfOk result (λ step. IsOn step → IsBounded self.new.seen self.new.broken) }
    {
        if fits(role, text, token) {
            self.broken = self.seen.read(alloc, role, text, token)?;
            self.last = token.start;
            // The types' bounds, by which the width of a term can be computed.
            prove!(self.seen.times <= u32::MAX && self.seen.width <= u64::MAX);
            Ok(Step::On)
        } else {
            let kind = if is_kind(token, Kind::Stray) { 1 } else { 2 };
            Ok(Step::Bad(Fault {
                kind,
                place: token.start,
            }))
        }
    }

    /// Goes on by a token, or by what ends the tokens.
    fn step(&mut self, alloc: Global, text: &'a [u8], token: Token) -> Result<Step, AllocError>
        requires { IsBounded self.old.seen self.old.broken }
        ensures after { IfOk result (λ step. (rules : List Rule) (symbols : List Placed)
            → IsBehind self.old (placed_of text.now token ∷ symbols)
            → IsAt rules (placed_of text.now token ∷ symbols) self.old → IsAfter rules symbols step self.new) }
        ensures bounded { IfOk result (λ step. IsOn step → IsBounded self.new.seen self.new.broken) }
    {
        let due = self.next_due(token.kind)?;
        if let Some(kind) = self.broken {
            return Ok(Step::Bad(Fault {
                kind,
                place: self.last,
            }));
        }
        match due {
            Due::Role(role) => Ok(self.take(alloc, role, text, token)?),
            Due::Nothing => Ok(Step::Whole),
            Due::Missing => Ok(Step::Bad(Fault {
                kind: 2,
                place: token.start,
            })),
        }
    }
}

/// The first fault of a text with these tokens, or none if it keeps all rules.
///
/// # Errors
///
/// Out of memory.
pub(crate) fn first_fault<'a>(
    alloc: Global,
    text: &'a [u8],
    tokens: &[Token],
) -> Result<Option<Fault>, AllocError>
    requires { AreSymbols unit_format 0 text.now (map (placed_of text.now) tokens.now) }
    ensures { IfOk result (IsAnswer text.now) }
{
    let mut checker = Checker::new(alloc, text)?;
    for token in tokens {
        match checker.step(alloc, text, *token)? {
            Step::On => {}
            Step::Whole => return Ok(None),
            Step::Bad(fault) => return Ok(Some(fault)),
        }
    }
    Ok(None)
}
