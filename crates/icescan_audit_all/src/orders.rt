//! Lines in the order of their bytes, so that those of several snapshots that are alike follow each other.

ghost use Rattle.std.specs.Prelude.{◌≡◌, ◌+◌, OnOk, None, option_map, true};
ghost use Rattle.contract_words.specs.Sorting.{sorted};
ghost use Rattle.icescan_audit_all.specs.Lines.{begins, is_same, line_before, number_of_faults, number_told};

use crate::lines::Line;
use std::alloc::AllocError;

/// Sorts lines by their bytes; those that are alike stay in the order of the snapshots.
pub fn sort_lines(lines: &mut Vec<Line>) -> Result<(), AllocError>
    ensures { OnOk result (lines.new.items ≡ sorted line_before lines.old.items) }
{
    lines.sort_by(|a, b| a.front.as_slice().cmp(b.front.as_slice()))?;
    Ok(())
}

/// Whether two lines say the same, of whatever snapshot.
fn is_same(before: &Line, line: &Line) -> bool
    ensures { result ≡ is_same before.now line.now }
{
    before.front.as_slice() == line.front.as_slice() && before.is_fault == line.is_fault
}

/// Whether a line says something else than the one before it.
pub fn begins(before: Option<&Line>, line: &Line) -> bool
    ensures { result ≡ begins (option_map (λ l. l.now) before.entry) line.now }
{
    match before {
        Some(before) => !is_same(before, line),
        None => true,
    }
}

/// How many different findings lines tell, and how many of them are faults.
pub fn numbers_told(lines: &[Line]) -> (usize, usize)
    ensures told { result.0 ≡ number_told None lines.now }
    ensures faults { result.1 ≡ number_of_faults None lines.now }
{
    let mut told = 0;
    let mut faults = 0;
    let mut before = None;
    'lines: for line in lines {
        if begins(before, line) {
            told += 1;
            if line.is_fault {
                faults += 1;
            }
        }
        before = Some(line);
    }
    (told, faults)
}
