//! The calls on plans.

ghost use Rattle.std.specs.Prelude.{◌≡◌};
ghost use Rattle.icescan_c.specs.Readings.{IsCount, IsDeleteOf, IsFileOfLine, IsTyped, Reads, ReadsPlaced};
ghost use Rattle.icescan_c.specs.Readings.{TellsCountOfDeletes, TellsDelete, TellsDeleteValue, at_place, count_of};
ghost use Rattle.icescan_c.specs.Readings.{equalities_of, lines_in, plan_in, positions_of, value_at};

use crate::handle::Handle;
use icescan_c_files::{File, Value};
use icescan_c_requests::{Refusal, status};
use std::alloc::Global;

/// Tells how many data files the plan has.
#[unsafe(no_mangle)]
pub extern "C" fn icescan_plan_count(alloc: Global, plan: &mut Handle, count: &mut usize) -> u32
    ensures told { Reads IsCount (λ held. count_of (lines_in held)) plan.old.held count.old result count.new }
    ensures unchanged { plan.new.held ≡ plan.old.held }
{
    let Some(held) = plan.take(alloc) else {
        return status(Err(Refusal::Kind));
    };
    let ended = held.count_files(count);
    plan.put(held);
    status(ended)
}

/// Lends the data file `i` of the plan.
#[unsafe(no_mangle)]
pub extern "C" fn icescan_plan_file(
    alloc: Global,
    plan: &mut Handle,
    i: usize,
    file: &mut File,
) -> u32
    ensures told { Reads (IsFileOfLine i) (λ held. at_place (lines_in held) i) plan.old.held file.old result
        file.new }
    ensures unchanged { plan.new.held ≡ plan.old.held }
{
    let Some(held) = plan.take(alloc) else {
        return status(Err(Refusal::Kind));
    };
    let ended = held.lend_file(i, file);
    plan.put(held);
    status(ended)
}

/// Lends the position delete file `j` of the data file `i` of the plan.
#[unsafe(no_mangle)]
pub extern "C" fn icescan_plan_position(
    alloc: Global,
    plan: &mut Handle,
    i: usize,
    j: usize,
    file: &mut File,
) -> u32
    ensures told { Reads IsDeleteOf (λ held. at_place (positions_of (at_place (lines_in held) i)) j) plan.old.held
        file.old result file.new }
    ensures unchanged { plan.new.held ≡ plan.old.held }
{
    let Some(held) = plan.take(alloc) else {
        return status(Err(Refusal::Kind));
    };
    let ended = held.lend_position(i, j, file);
    plan.put(held);
    status(ended)
}

/// Lends the equality delete file `j` of the data file `i` of the plan.
#[unsafe(no_mangle)]
pub extern "C" fn icescan_plan_equality(
    alloc: Global,
    plan: &mut Handle,
    i: usize,
    j: usize,
    file: &mut File,
) -> u32
    ensures told { Reads IsDeleteOf (λ held. at_place (equalities_of (at_place (lines_in held) i)) j) plan.old.held
        file.old result file.new }
    ensures unchanged { plan.new.held ≡ plan.old.held }
{
    let Some(held) = plan.take(alloc) else {
        return status(Err(Refusal::Kind));
    };
    let ended = held.lend_equality(i, j, file);
    plan.put(held);
    status(ended)
}

/// Lends the partition value `k` of the data file `i` of the plan.
#[unsafe(no_mangle)]
pub extern "C" fn icescan_plan_value(
    alloc: Global,
    plan: &mut Handle,
    i: usize,
    k: usize,
    value: &mut Value,
) -> u32
    ensures told { Reads IsTyped (λ held. value_at (plan_in held) i k) plan.old.held value.old result value.new }
    ensures unchanged { plan.new.held ≡ plan.old.held }
{
    let Some(held) = plan.take(alloc) else {
        return status(Err(Refusal::Kind));
    };
    let ended = held.lend_value(i, k, value);
    plan.put(held);
    status(ended)
}

/// Tells how many delete files the plan has, each once.
#[unsafe(no_mangle)]
pub extern "C" fn icescan_plan_deletes(alloc: Global, plan: &mut Handle, count: &mut usize) -> u32
    ensures told { ReadsPlaced TellsCountOfDeletes plan.old.held count.old result count.new }
    ensures unchanged { plan.new.held ≡ plan.old.held }
{
    let Some(held) = plan.take(alloc) else {
        return status(Err(Refusal::Kind));
    };
    let ended = held.count_deletes(count);
    plan.put(held);
    status(ended)
}

/// Lends the delete file `n` of the plan.
#[unsafe(no_mangle)]
pub extern "C" fn icescan_plan_delete(
    alloc: Global,
    plan: &mut Handle,
    n: usize,
    file: &mut File,
) -> u32
    ensures told { ReadsPlaced (TellsDelete n) plan.old.held file.old result file.new }
    ensures unchanged { plan.new.held ≡ plan.old.held }
{
    let Some(held) = plan.take(alloc) else {
        return status(Err(Refusal::Kind));
    };
    let ended = held.lend_placed(n, file);
    plan.put(held);
    status(ended)
}

/// Lends the partition value `k` of the delete file `n` of the plan.
#[unsafe(no_mangle)]
pub extern "C" fn icescan_plan_delete_value(
    alloc: Global,
    plan: &mut Handle,
    n: usize,
    k: usize,
    value: &mut Value,
) -> u32
    ensures told { ReadsPlaced (TellsDeleteValue n k) plan.old.held value.old result value.new }
    ensures unchanged { plan.new.held ≡ plan.old.held }
{
    let Some(held) = plan.take(alloc) else {
        return status(Err(Refusal::Kind));
    };
    let ended = held.lend_placed_value(n, k, value);
    plan.put(held);
    status(ended)
}
