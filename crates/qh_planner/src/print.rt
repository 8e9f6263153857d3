//! From a table of cuts to its one spelling.
ghost use Rattle.std.specs.Prelude.{◌≡◌, ◌++◌, IfOk, OnOk};
ghost use Rattle.qh_text.specs.Words.{word_of};
ghost use Rattle.qh_planner.specs.Spelling.{answer_text, fault_text, number_word, row_line, table_text};

use crate::fault::{fault_name, fault_number};
use crate::row::{CutAnswer, CutRow};
use qh_plan::PlanFault;
use qh_text::push_word;
use std::alloc::{AllocError, Global};

/// The text of a table, a line for each row, in their order.
///
/// The line of an allowed cut is `cut m c cost`, where m is its size and 2^c its number of paths. That of a refused cut
/// is `cut m NAME`, or `cut m NAME number` where the refusal has a number. An Err is want of memory.
pub fn print_table(alloc: Global, table: &[CutRow]) -> Result<Vec<u8>, AllocError>
    ensures { IfOk result (λ text. text.items ≡ table_text table.now) }
{
    let mut text = Vec::new(alloc);
    for row in table {
        push_row(&mut text, row)?;
    }
    Ok(text)
}

/// Appends the line of a row.
fn push_row(text: &mut Vec<u8>, row: &CutRow) -> Result<(), AllocError>
    ensures { OnOk result (text.new.items ≡ text.old.items ++ row_line row.now) }
{
    text.extend_from_slice(b"cut")?;
    push_word(text, row.size)?;
    push_answer(text, row.answer)?;
    text.push(b'\n')?;
    Ok(())
}

/// Appends what the plan says of a cut.
fn push_answer(text: &mut Vec<u8>, answer: CutAnswer) -> Result<(), AllocError>
    ensures { OnOk result (text.new.items ≡ text.old.items ++ answer_text answer) }
{
    match answer {
        CutAnswer::Allowed { log2, cost } => {
            push_word(text, log2)?;
            push_word(text, cost)
        }
        CutAnswer::Refused(fault) => push_fault(text, fault),
    }
}

/// Appends a space and a refusal.
fn push_fault(text: &mut Vec<u8>, fault: PlanFault) -> Result<(), AllocError>
    ensures { OnOk result (text.new.items ≡ text.old.items ++ word_of (fault_text fault)) }
{
    text.push(b' ')?;
    text.extend_from_slice(fault_name(fault).as_bytes())?;
    push_number_word(text, fault_number(fault))
}

/// Appends a space and the number, where there is one.
fn push_number_word(text: &mut Vec<u8>, number: Option<u64>) -> Result<(), AllocError>
    ensures { OnOk result (text.new.items ≡ text.old.items ++ number_word number) }
{
    match number {
        None => Ok(()),
        Some(number) => push_word(text, number),
    }
}
