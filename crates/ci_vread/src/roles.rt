//! Tokens in their roles.
ghost use Rattle.std.specs.Prelude.{◌≡◌, ◌↔◌, ◌≤◌, [], ◌∷◌, IsTrue, IfOk, None};
ghost use Rattle.ci_reading.specs.Tokens as reading;
ghost use Rattle.ci_vread.specs.Lexicon as lexicon;
ghost use Rattle.ci_vread.specs.Grammar.{Fits, its_use, read};
ghost use Rattle.ci_vread.specs.Rules.{bytes_of};
ghost use Rattle.ci_vread.specs.private.Scanned.{text_of, symbol_of};
ghost use Rattle.ci_vread.specs.private.Tables.{IsUse, role_of};
ghost use Rattle.ci_vread.specs.private.Checked.{StepsOn, Suits};

use crate::grammar::{Role, is_operator, is_sign};
use crate::seen::Seen;
use crate::tokens::{Kind, Sign, Token};
use crate::values::{constant_of, name_of, number_of};
use std::alloc::{AllocError, Global};

/// The token is of this kind.
pub(crate) fn is_kind(token: Token, kind: Kind) -> bool
    ensures { IsTrue result ↔ (token.kind ≡ kind) }
{
    token.kind == kind
}

/// The token is this number.
fn is_number(text: &[u8], token: Token, number: u32) -> bool
    ensures { IsTrue result ↔ (symbol_of text.now token ≡ reading.token (lexicon.number number)) }
{
    if is_kind(token, Kind::Number) {
        number_of(text, token) == number
    } else {
        false
    }
}

/// The token is the name that is this letter alone.
fn is_letter(text: &[u8], token: Token, letter: u8) -> bool
    ensures { IsTrue result ↔ (symbol_of text.now token ≡ reading.token (lexicon.name (letter ∷ []))) }
{
    if is_kind(token, Kind::Name) {
        let bytes = name_of(text, token);
        bytes.len() == 1 && bytes[0] == letter
    } else {
        false
    }
}

/// The token is a name that a term may have: a name, or a word for an input.
fn is_use(token: Token) -> bool
    ensures { IsTrue result ↔ IsUse token.kind }
{
    match token.kind {
        Kind::Name => true,
        Kind::Sign(sign) => sign == Sign::NameA || sign == Sign::NameB || sign == Sign::NameC,
        Kind::Operator(_)
        | Kind::Number
        | Kind::Constant
        | Kind::Cycles
        | Kind::Never
        | Kind::Stray
        | Kind::End => false,
    }
}

/// The bytes of a name that a term has.
fn used_name(text: &[u8], token: Token) -> &[u8]
    ensures { (t : lexicon.Token) → symbol_of text.now token ≡ reading.token t → Fits its_use t
        → bytes_of t ≡ result.now }
{
    match token.kind {
        Kind::Sign(Sign::NameA) => b"a",
        Kind::Sign(Sign::NameB) => b"b",
        Kind::Sign(Sign::NameC) => b"c",
        _ => name_of(text, token),
    }
}

/// The token can have the role.
pub(crate) fn fits(role: Role, text: &[u8], token: Token) -> bool
    ensures { IsTrue result ↔ Suits role token.kind (text_of text.now token) }
{
    match role {
        Role::Sign(sign) => is_sign(token.kind, sign),
        Role::Number(number) => is_number(text, token, u32::from(number)),
        Role::Letter(letter) => is_letter(text, token, letter),
        Role::Cycles => is_kind(token, Kind::Cycles),
        Role::Module | Role::Name | Role::Target => is_kind(token, Kind::Name),
        Role::Use => is_use(token),
        Role::High | Role::Index | Role::Low | Role::Count => is_kind(token, Kind::Number),
        Role::Constant => is_kind(token, Kind::Constant),
        Role::Operator => is_operator(token.kind),
    }
}

impl<'a> Seen<'a> {
    /// Notes what a token says in its role, which it has to fit, and tells the kind of the rule that it breaks.
    pub(crate) fn read(
        &mut self,
        alloc: Global,
        role: Role,
        text: &'a [u8],
        token: Token,
    ) -> Result<Option<u8>, AllocError>
        requires { self.old.modules ≤ 32 }
        ensures on { IfOk result (λ broken. (t : lexicon.Token) → symbol_of text.now token ≡ reading.token t
            → Fits (role_of role) t → StepsOn self.old self.new broken (read (role_of role) t)) }
        ensures tame { IfOk result (λ broken. (self.new.sum ≡ self.old.sum)
            × (broken ≡ None → self.new.modules ≤ 32)) }
    {
        match role {
            Role::Sign(_) | Role::Number(_) | Role::Letter(_) | Role::Cycles => Ok(None),
            Role::Module => Ok(self.read_module(alloc, name_of(text, token))?),
            Role::High => Ok(self.read_high(number_of(text, token))),
            Role::Name => Ok(self.read_name(name_of(text, token))),
            Role::Target => Ok(self.read_target(name_of(text, token))),
            Role::Use => Ok(self.read_use(used_name(text, token))),
            Role::Index => Ok(self.read_index(number_of(text, token))),
            Role::Low => Ok(self.read_low(number_of(text, token))),
            Role::Count => Ok(self.read_count(number_of(text, token))),
            Role::Constant => {
                let (width, value) = constant_of(text, token);
                Ok(self.read_constant(width, value))
            }
            Role::Operator => match token.kind {
                Kind::Operator(operator) => Ok(self.read_operator(operator)),
                _ => Ok(None),
            },
        }
    }
}
