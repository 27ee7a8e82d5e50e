//! What callers rest on: one function for each promise of this crate's calls, proved from the contract of the call
//! alone. So it is refused as soon as that contract says less.

ghost use Rattle.std.specs.Prelude.{◌≡◌, ◌≤◌, ◌<◌, ◌∷◌, [], IfErr, IfOk, IfSome, IsErr, IsErrOf, IsSome, IsTrue, false, get_or, length, true};
ghost use Rattle.std.specs.FinSet as set;
ghost use Rattle.base.specs.common.Rising.{rising};
ghost use Rattle.base.specs.formats.Geometry.{block_address};
ghost use Rattle.space.specs.FreeSets.{is_free};

use crate::bit_flags::BitFlags;
use crate::counted_flags::CountedFlags;
use crate::free_set::FreeSet;
use base::PoolError;
use std::alloc::{AllocError, Global};

fn a_taken_block_is_free_no_more(free: &mut FreeSet) {
    free.take(3);
    let is_free = free.is_free(3);
    prove!(!is_free);
}

fn a_given_block_is_free(free: &mut FreeSet)
    requires { 4 ≤ free.old.blocks }
{
    free.give(3);
    let is_free = free.is_free(3);
    prove!(is_free);
}

fn a_block_that_the_set_does_not_have_is_not_given(free: &mut FreeSet)
    requires { free.old.blocks ≡ 24 }
    ensures { free.new ≡ free.old }
{
    free.give(24);
}

fn the_first_free_block_is_taken_first(free: &mut FreeSet) -> Result<usize, PoolError>
    requires { IsTrue (is_free 0 free.old) }
    ensures { IfOk result (λ block. block ≡ 0) }
{
    free.take_lowest()
}

fn no_block_is_taken_where_none_is_free(free: &mut FreeSet) -> Result<usize, PoolError>
    requires { set.len free.old.free ≡ 0 }
    ensures refused { IsErrOf result PoolError.NoSpace }
    ensures unchanged { free.new ≡ free.old }
{
    free.take_lowest()
}

// Of 24 free blocks 6 are reserved, and 18 stay available.
fn reserved_blocks_are_available_no_more(free: &mut FreeSet) -> u64
    requires free { set.len free.old.free ≡ 24 }
    requires reserved { free.old.reserved ≡ 0 }
    requires taken { free.old.taken ≡ 0 }
    ensures { result ≡ 18 }
{
    let reserved = free.reserve(6, 16);
    prove!(reserved.is_ok());
    free.available()
}

// The 16 blocks that are kept back stay available.
fn blocks_that_are_kept_back_are_not_given_away(free: &mut FreeSet) -> Result<(), PoolError>
    requires free { set.len free.old.free ≡ 24 }
    requires reserved { free.old.reserved ≡ 3 }
    requires taken { free.old.taken ≡ 0 }
    ensures refused { IsErrOf result PoolError.NoSpace }
    ensures unchanged { free.new.reserved ≡ 3 }
{
    free.reserve(6, 16)
}

fn what_a_sync_takes_of_its_own_blocks_stays_available(free: &mut FreeSet) -> u64
    requires free { set.len free.old.free ≡ 24 }
    requires reserved { free.old.reserved ≡ 6 }
    requires taken { free.old.taken ≡ 2 }
    ensures { result ≡ 20 }
{
    free.available()
}

fn a_sync_counts_what_it_takes(free: &mut FreeSet) -> u64
    requires free { set.len free.old.free ≡ 24 }
    requires reserved { free.old.reserved ≡ 6 }
    requires taken { free.old.taken ≡ 0 }
    requires is_free { is_free 1 free.old ≡ true }
    ensures { result ≡ 18 }
{
    free.take_for_sync(1);
    free.available()
}

fn an_ended_sync_reserves_nothing(free: &mut FreeSet) -> u64
    requires free { set.len free.old.free ≡ 22 }
    requires reserved { free.old.reserved ≡ 6 }
    requires taken { free.old.taken ≡ 2 }
    ensures { result ≡ 22 }
{
    free.end_sync(6);
    free.available()
}

fn another_reservation_stays(free: &mut FreeSet) -> u64
    requires free { set.len free.old.free ≡ 24 }
    requires reserved { free.old.reserved ≡ 10 }
    requires taken { free.old.taken ≡ 0 }
    ensures { result ≡ 18 }
{
    free.unreserve(4);
    free.available()
}

fn a_free_block_is_not_passed_over(free: &FreeSet) -> Option<usize>
    requires { IsTrue (is_free 3 free.now) }
    ensures { IfSome result (λ block. block ≤ 3) }
{
    free.next_from(1)
}

fn the_lowest_two_of_three_free_blocks_are_found(
    alloc: Global,
    free: &FreeSet,
) -> Result<Vec<usize>, PoolError>
    requires { rising free.now.free ≡ block_address 7 ∷ block_address 9 ∷ block_address 10 ∷ [] }
    ensures found { IfOk result (λ blocks. blocks.items ≡ 7 ∷ 9 ∷ []) }
    ensures enough { IfErr result (λ e. e ≡ PoolError.NoMemory) }
{
    free.lowest(alloc, 2)
}

fn four_of_three_free_blocks_are_not_found(
    alloc: Global,
    free: &FreeSet,
) -> Result<Vec<usize>, PoolError>
    requires { rising free.now.free ≡ block_address 7 ∷ block_address 9 ∷ block_address 10 ∷ [] }
    ensures { IsErr result }
{
    free.lowest(alloc, 4)
}

fn a_count_of_free_blocks_is_theirs(free: &FreeSet) -> u64
    requires { set.len free.now.free ≡ 24 }
    ensures { result ≡ 24 }
{
    free.free()
}

fn all_blocks_of_a_new_set_are_free(alloc: Global) -> Result<(), AllocError> {
    let free = FreeSet::new(alloc, 24)?;
    let last = free.is_free(23);
    let past = free.is_free(24);
    let count = free.free();
    let available = free.available();
    let blocks = free.blocks();
    prove!(last);
    prove!(!past);
    prove!(blocks == 24 && available == count);
    Ok(())
}

fn a_copy_has_the_same_free_blocks(alloc: Global, free: &FreeSet) -> Result<(), AllocError>
    requires low { is_free 3 free.now ≡ true }
    requires high { is_free 4 free.now ≡ false }
{
    let copy = free.copy(alloc)?;
    let low = copy.is_free(3);
    let high = copy.is_free(4);
    prove!(low && !high);
    Ok(())
}

fn all_flags_that_there_are_are_set(alloc: Global) -> Result<(), AllocError> {
    let flags = BitFlags::all_set(alloc, 70)?;
    let last = flags.get(69);
    let past = flags.get(70);
    let count = flags.len();
    prove!(last);
    prove!(!past);
    prove!(count == 70);
    Ok(())
}

fn flags_of_a_copy_are_the_same(alloc: Global, flags: &BitFlags) -> Result<(), AllocError>
    requires low { get_or flags.now 3 false ≡ true }
    requires high { get_or flags.now 4 false ≡ false }
{
    let copy = flags.copy(alloc)?;
    let low = copy.get(3);
    let high = copy.get(4);
    prove!(low && !high);
    Ok(())
}

// It is set, and one that was clear beside it stays so.
fn one_flag_alone_is_set(flags: &mut BitFlags)
    requires there { 69 < length flags.old }
    requires beside { get_or flags.old 68 false ≡ false }
{
    flags.set(69);
    let is_set = flags.get(69);
    let beside = flags.get(68);
    prove!(is_set && !beside);
}

// It is cleared, and one that was set beside it stays so.
fn one_flag_alone_is_cleared(flags: &mut BitFlags)
    requires there { 69 < length flags.old }
    requires beside { get_or flags.old 68 false ≡ true }
{
    flags.clear(69);
    let is_set = flags.get(69);
    let beside = flags.get(68);
    prove!(!is_set && beside);
}

// Flag 69 is set and lies from flag 1 on and before flag 100: a set flag is found, and it's no later one.
fn a_search_finds_a_set_flag(flags: &BitFlags) -> Option<usize>
    requires { get_or flags.now 69 false ≡ true }
    ensures found { IsSome result }
    ensures first { IfSome result (λ flag. flag ≤ 69) }
{
    flags.first_set(1, 100)
}

fn a_flag_that_is_found_is_set_and_in_the_range(flags: &BitFlags) -> Option<usize>
    ensures set { IfSome result (λ flag. get_or flags.now flag false ≡ true) }
    ensures from { IfSome result (λ flag. 1 ≤ flag) }
    ensures before { IfSome result (λ flag. flag < 100) }
{
    flags.first_set(1, 100)
}

// Flag 40000 is of the second region.
fn a_search_over_regions_finds_a_set_flag(flags: &CountedFlags) -> Option<usize>
    requires { get_or flags.now 40000 false ≡ true }
    ensures found { IsSome result }
    ensures first { IfSome result (λ flag. flag ≤ 40000) }
    ensures set { IfSome result (λ flag. get_or flags.now flag false ≡ true) }
{
    flags.first_set(1)
}

fn one_counted_flag_alone_is_cleared(flags: &mut CountedFlags)
    requires set { get_or flags.old 69 false ≡ true }
    requires beside { get_or flags.old 68 false ≡ true }
{
    flags.clear(69);
    let is_set = flags.get(69);
    let beside = flags.get(68);
    prove!(!is_set && beside);
}

fn one_counted_flag_alone_is_set(flags: &mut CountedFlags)
    requires there { 69 < length flags.old }
    requires clear { get_or flags.old 69 false ≡ false }
    requires beside { get_or flags.old 68 false ≡ false }
{
    flags.set(69);
    let is_set = flags.get(69);
    let beside = flags.get(68);
    prove!(is_set && !beside);
}
