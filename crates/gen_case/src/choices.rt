//! What is drawn for an instruction.

ghost use Rattle.std.specs.Prelude.{◌≡◌, ◌<◌};
ghost use Rattle.gen_case.specs.Draws.{next_state, state_after};
ghost use Rattle.gen_case.specs.Choices.{operation_drawn, flow_drawn, choice_from, IsFlow, IsChoice};

use crate::draws::Draws;

/// An operation by its mnemonic. Those with a flag function name it.
#[derive(Clone, Copy)]
pub enum Operation {
    /// `ILR R`
    Ilr,
    /// `ALR R`
    Alr,
    /// `INR R FF1`
    Inr,
    /// `ADR R STC`
    Adr,
    /// `LDI AC FF1`
    Ldi,
    /// `XNR R STZ`
    Xnr,
    /// `SRA AC FFC`
    Sra,
    /// `LMI R FFZ`
    Lmi,
}

/// A flow statement and where it leads.
#[derive(Clone, Copy)]
pub enum Flow {
    /// `goto` a label of the same row, by its column, 0 to 15.
    SameRow(u8),
    /// `goto` a label of the same column, by its row, 0 to 7.
    SameColumn(u8),
    /// `iff` to the two labels of a row, 0 to 7, that a test of the flag leads to.
    OnFlag(u8),
}

/// What is drawn for an instruction.
#[derive(Clone, Copy)]
pub struct Choice {
    /// Its operation.
    pub operation: Operation,
    /// The number of its register, 0 to 9; LDI and SRA take AC instead.
    pub register: u8,
    /// The value of its field, 0 to 15.
    pub value: u8,
    /// Its flow statement.
    pub flow: Flow,
}

// The operation of a number below 8.
fn operation_of(number: u64) -> Operation
    ensures { result ≡ operation_drawn number }
{
    match number {
        0 => Operation::Ilr,
        1 => Operation::Alr,
        2 => Operation::Inr,
        3 => Operation::Adr,
        4 => Operation::Ldi,
        5 => Operation::Xnr,
        6 => Operation::Sra,
        _ => Operation::Lmi,
    }
}

// The flow statement of a number below 3, with one draw for its target.
fn draw_flow(draws: &mut Draws, number: u64) -> Flow
    ensures state { draws.new.state ≡ next_state draws.old.state }
    ensures flow { result ≡ flow_drawn number draws.new.state }
    ensures range { IsFlow result }
{
    match number {
        0 => Flow::SameRow(draws.draw(16) as u8),
        1 => Flow::SameColumn(draws.draw(8) as u8),
        _ => Flow::OnFlag(draws.draw(8) as u8),
    }
}

/// Draws what an instruction is: five draws, in the order of the fields.
#[tactic(auto, unfolding(crate::specs::Draws::state_after))]
pub fn choose(draws: &mut Draws) -> Choice
    ensures state { draws.new.state ≡ state_after draws.old.state 5 }
    ensures choice { result ≡ choice_from draws.old.state }
    ensures range { IsChoice result }
{
    let operation = operation_of(draws.draw(8));
    let register = draws.draw(10) as u8;
    let value = draws.draw(16) as u8;
    let number = draws.draw(3);
    let flow = draw_flow(draws, number);
    Choice {
        operation,
        register,
        value,
        flow,
    }
}
