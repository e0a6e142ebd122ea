// What the counted lines of a text say.

ghost use Rattle.std.specs.Prelude.{◌≡◌, ◌+◌, ◌%◌, ◌≤◌, ◌<◌, ◌^◌, ◌==◌, ◌||◌, ◌++◌, None, false, true, [], ◌∷◌, length, map, take, slice_index, nat_lt, IfOk, IfErr, OnOk};
ghost use Rattle.std.specs.List.{list_any};
ghost use Rattle.aiger_read.specs.Header.{counted};
ghost use Rattle.aiger_read.specs.Statements as spelled;
ghost use Rattle.aiger_read.specs.Statements.{defines, defined_in, statements, has_literal_past, is_indefinable, has_bad_literal, has_reset, fault_in_line, statement_in, variable_of};
ghost use Rattle.aiger_read.specs.Steps.{IsFaultOn};

use crate::fault::{AigerFault, AigerKind, at};
use crate::header::Header;
use crate::variables::Variables;

/// What a counted line has to be.
#[derive(Clone, Copy, PartialEq, Eq)]
pub enum Role {
    Input,
    Latch,
    Output,
    And,
}

/// A latch, in literals: 2v is variable v, and 2v + 1 its negation.
#[derive(Clone, Copy)]
pub struct LatchLine {
    pub literal: u32,
    pub next: u32,
    pub reset: bool,
}

/// An and of two literals.
#[derive(Clone, Copy)]
pub struct AndLine {
    pub literal: u32,
    pub left: u32,
    pub right: u32,
}

/// What a counted line says. An input and an output are literals.
#[derive(Clone, Copy)]
pub enum Statement {
    Input(u32),
    Latch(LatchLine),
    Output(u32),
    And(AndLine),
}

/// Whether a literal is no variable that can be defined.
fn is_indefinable(literal: u32) -> bool
    ensures { result ≡ is_indefinable literal }
{
    literal % 2 == 1 || literal == 0
}

impl Role {
    /// What the line at a place, counted from 0 at the header, has to be.
    #[tactic(auto, unfolding(crate::specs::Statements::role_at))]
    pub fn at(header: &Header, place: u64) -> Role
        ensures { result ≡ spelled.role_at header.now place }
    {
        let inputs = u64::from(header.inputs);
        let latches = inputs + u64::from(header.latches);
        let outputs = latches + u64::from(header.outputs);
        if place <= inputs {
            Role::Input
        } else if place <= latches {
            Role::Latch
        } else if place <= outputs {
            Role::Output
        } else {
            Role::And
        }
    }

    /// Whether its line may have so many numbers.
    fn takes(self, many: usize) -> bool
        ensures { result ≡ spelled.takes self many }
    {
        match self {
            Role::Input | Role::Output => many == 1,
            Role::Latch => many == 2 || many == 3,
            Role::And => many == 3,
        }
    }

    /// Whether its first literal is defined by it.
    fn is_defining(self) -> bool
        ensures { result ≡ spelled.is_defining self }
    {
        !matches!(self, Role::Output)
    }

    /// The literals among its numbers: all but a reset.
    fn literals_on(self, numbers: &[u32]) -> &[u32]
        requires { spelled.takes self (length numbers.now) ≡ true }
        ensures { result.now ≡ spelled.literals_on self numbers.now }
    {
        match self {
            Role::Latch => &numbers[..2],
            _ => numbers,
        }
    }

    /// Whether a literal is past the last variable.
    fn has_literal_past(self, header: &Header, numbers: &[u32]) -> bool
        requires { spelled.takes self (length numbers.now) ≡ true }
        ensures { result ≡ has_literal_past header.now self numbers.now }
    {
        let most = 2 * u64::from(header.variables) + 1;
        self.literals_on(numbers)
            .iter()
            .any(|literal| u64::from(*literal) > most)
    }

    /// Whether a literal is past the last variable, or cannot be defined.
    fn has_bad_literal(self, header: &Header, numbers: &[u32]) -> bool
        requires { spelled.takes self (length numbers.now) ≡ true }
        ensures { result ≡ has_bad_literal header.now self numbers.now }
    {
        self.has_literal_past(header, numbers) || (self.is_defining() && is_indefinable(numbers[0]))
    }

    /// What the numbers of its line say. A missing reset is 0.
    fn statement_in(self, numbers: &[u32]) -> Statement
        requires { spelled.takes self (length numbers.now) ≡ true }
        ensures { result ≡ statement_in self numbers.now }
    {
        match self {
            Role::Input => Statement::Input(numbers[0]),
            Role::Latch => Statement::Latch(LatchLine {
                literal: numbers[0],
                next: numbers[1],
                reset: numbers.len() == 3 && numbers[2] == 1,
            }),
            Role::Output => Statement::Output(numbers[0]),
            Role::And => Statement::And(AndLine {
                literal: numbers[0],
                left: numbers[1],
                right: numbers[2],
            }),
        }
    }
}

/// What a line of a role says, by its numbers. The variable that it defines is put behind those before.
#[tactic(auto, unfolding(crate::specs::Statements::fault_in_line))]
pub fn statement_on(
    header: &Header,
    line: u32,
    role: Role,
    numbers: &[u32],
    variables: &mut Variables,
) -> Result<Statement, AigerFault>
    ensures lawful { OnOk result (fault_in_line header.now variables.old role numbers.now ≡ None) }
    ensures said { IfOk result (λ s. s ≡ statement_in role numbers.now) }
    ensures defined { OnOk result (variables.new ≡ variables.old ++ defines (statement_in role numbers.now)) }
    ensures fault { IfErr result (λ e. IsFaultOn e line (fault_in_line header.now variables.old role numbers.now)) }
{
    if !role.takes(numbers.len()) {
        return Err(at(line, AigerKind::BadLine));
    }
    if role.has_bad_literal(header, numbers) {
        return Err(at(line, AigerKind::BadLiteral));
    }
    if role.is_defining() && !variables.insert(numbers[0] / 2)? {
        return Err(at(line, AigerKind::Repeated));
    }
    if role == Role::Latch && numbers.len() == 3 && numbers[2] > 1 {
        return Err(at(
            line,
            if numbers[2] == numbers[0] {
                AigerKind::UnknownInit
            } else {
                AigerKind::BadReset
            },
        ));
    }
    Ok(role.statement_in(numbers))
}
