//! One line of a text.
ghost use Rattle.std.specs.Prelude.{◌≡◌, ◌≤◌, length, IfOk, IfErr};
ghost use Rattle.ci_asm.specs.private.Statements.{is_label, with_statement, read_line, IsLineOf};

use crate::faults::Fault;
use crate::scanner::{Kind, Token, next_token};
use crate::statements::{Statement, read_statement};

/// What a line has, but for its comment.
#[derive(Clone, Copy)]
pub(crate) struct Line {
    /// The name of the label that is defined.
    pub label: Option<Token>,
    pub statement: Option<Statement>,
}

/// A name and a colon begin a label.
fn is_label(first: Kind, second: Kind) -> bool
    ensures { result ≡ is_label first second }
{
    match (first, second) {
        (Kind::Name, Kind::Mark(mark)) => mark == b':',
        _ => false,
    }
}

/// The line with this label, whose statement begins with the token, or which has none.
fn with_statement(
    line: &[u8],
    label: Option<Token>,
    token: Token,
    full: bool,
) -> Result<Line, Fault>
    requires { token.start ≤ length line.now }
    ensures value { result ≡ with_statement line.now label token full token.kind }
    ensures bound { IfErr result (λ fault. fault.place ≤ length line.now) }
{
    if let Kind::End = token.kind {
        return Ok(Line {
            label,
            statement: None,
        });
    }
    let statement = read_statement(line, token, full)?;
    Ok(Line {
        label,
        statement: Some(statement),
    })
}

/// What the line has. Where the program is full, no more statements may come.
#[tactic(auto, unfolding(crate::specs::private::Statements::read_line))]
pub(crate) fn read_line(line: &[u8], full: bool) -> Result<Line, Fault>
    ensures value { result ≡ read_line line.now full }
    ensures line { IfOk result (IsLineOf (length line.now)) }
    ensures bound { IfErr result (λ fault. fault.place ≤ length line.now) }
{
    let first = next_token(line, 0);
    let second = next_token(line, first.end);
    if is_label(first.kind, second.kind) {
        with_statement(line, Some(first), next_token(line, second.end), full)
    } else {
        with_statement(line, None, first, full)
    }
}
