//! What callers rest on of blocks that are sealed and opened.

ghost use Rattle.std.specs.Prelude.{◌≡◌, ◌∷◌, [], IfOk, IsErrOf, IsOk, drop, false, length, true};
ghost use Rattle.base.specs.formats.Blocks.{IsSealed, sealed_block};
ghost use Rattle.base.specs.formats.Fields.{number_at, part};
ghost use Rattle.checked_blocks.specs.Opening.{IsExpected};

use base::{BLOCK_SIZE, Group, PoolError, Version};
use checked_blocks::{
    Block, Content, Expected, Frame, Lanes, Payload, Prepared, ReadBlock, SealedBlock,
    are_expected, open, open_all, seal, seal_all, seal_four,
};
use std::alloc::{AllocError, Global};

fn a_sealed_block_opens_and_gives_its_payload(payload: &[u8]) -> Result<(), PoolError>
    requires { length payload.now ≡ 4032 }
    ensures { IsOk result }
{
    let block = seal(5, 77, Group(9), 3, payload)?;
    let expected = Expected {
        address: 4_194_304,
        kind: 5,
        guid: 77,
        number: 3,
        group: Some(Group(9)),
        check: Some(block.check()),
    };
    let opened = open(block.as_bytes(), &expected)?;
    let same = opened.as_slice() == payload;
    let born = opened.group();
    prove!(same && born.0 == 9);
    Ok(())
}

fn a_sealed_block_opens_itself_and_gives_its_payload(payload: &[u8]) -> Result<(), PoolError>
    requires { length payload.now ≡ 4032 }
    ensures { IsOk result }
{
    let block = seal(5, 77, Group(9), 3, payload)?;
    let expected = Expected {
        address: 4_194_304,
        kind: 5,
        guid: 77,
        number: 3,
        group: Some(Group(9)),
        check: Some(block.check()),
    };
    let opened = block.open(&expected)?;
    let same = opened.as_slice() == payload;
    prove!(same);
    Ok(())
}

fn a_sealed_block_of_another_group_does_not_open_itself(
    block: &Block,
) -> Result<Payload<'_>, PoolError>
    requires { number_at block.now 16 ≡ 8 }
    ensures { IsErrOf result (PoolError.Damaged 5 4194304) }
{
    block.open(&Expected {
        address: 4_194_304,
        kind: 5,
        guid: 77,
        number: 3,
        group: Some(Group(9)),
        check: None,
    })
}

// A block that is sealed with three others is the one that is sealed alone.
fn the_third_of_four_blocks_is_as_sealed_alone(payload: &[u8]) -> Result<(), PoolError>
    requires { length payload.now ≡ 4032 }
    ensures { IsOk result }
{
    let other = Content {
        number: 1,
        payload: &[],
    };
    let third = Content { number: 3, payload };
    let [_, _, block, _] = seal_four(5, 77, Group(9), &other, &other, &third, &other)?;
    let alone = seal(5, 77, Group(9), 3, payload)?;
    prove!(block == alone);
    Ok(())
}

fn no_four_blocks_have_a_payload_of_4033_bytes(payload: &[u8]) -> Result<[Block; 4], PoolError>
    requires { length payload.now ≡ 4033 }
    ensures { IsErrOf result PoolError.BadRange }
{
    let long = Content { number: 3, payload };
    let short = Content {
        number: 1,
        payload: &[],
    };
    seal_four(5, 77, Group(9), &short, &short, &short, &long)
}

// Prepared blocks become the sealed blocks of their numbers and payloads, in their order, with any lanes.
fn prepared_blocks_are_sealed(
    alloc: Global,
    lanes: Lanes,
    first: Prepared,
    second: Prepared,
) -> Result<Vec<SealedBlock>, AllocError>
    ensures { IfOk result (λ sealed. sealed.items
        ≡ sealed_block 5 77 9 first.number (drop 64 first.bytes.value)
        ∷ sealed_block 5 77 9 second.number (drop 64 second.bytes.value) ∷ []) }
{
    let blocks = vec![in alloc; first, second]?;
    seal_all(alloc, lanes, 5, 77, Group(9), blocks)
}

// A prepared block that is sealed with another one is the one that is sealed alone.
fn the_second_of_prepared_blocks_is_as_sealed_alone(
    alloc: Global,
    payload: &[u8],
) -> Result<(), PoolError>
    requires { length payload.now ≡ 4032 }
{
    let other = Prepared::new(alloc, 1, &[])?;
    let second = Prepared::new(alloc, 3, payload)?;
    let sealed = prepared_blocks_are_sealed(alloc, Lanes::Eight, other, second)?;
    let block = sealed[1].to_block();
    let alone = seal(5, 77, Group(9), 3, payload)?;
    prove!(block == alone);
    Ok(())
}

// A pointer to a block that was sealed in its own memory has the check of the block's bytes.
fn a_sealed_block_has_the_check_of_its_bytes(block: &SealedBlock) {
    let check = block.check();
    let bytes = block.as_bytes();
    prove!(check[..] == bytes[32..64]);
}

fn a_copy_of_a_block_has_its_bytes(block: &Block) {
    prove!(block.copy() == *block);
}

fn no_block_has_kind_8() -> Result<Block, PoolError>
    ensures { IsErrOf result PoolError.BadRange }
{
    seal(8, 77, Group(9), 3, &[])
}

fn no_payload_has_4033_bytes(payload: &[u8]) -> Result<Block, PoolError>
    requires { length payload.now ≡ 4033 }
    ensures { IsErrOf result PoolError.BadRange }
{
    seal(5, 77, Group(9), 3, payload)
}

fn a_block_of_another_pool_does_not_open(block: &[u8; BLOCK_SIZE]) -> Result<Payload<'_>, PoolError>
    requires { number_at block.now 8 ≡ 78 }
    ensures { IsErrOf result (PoolError.Damaged 5 4194304) }
{
    open(
        block,
        &Expected {
            address: 4_194_304,
            kind: 5,
            guid: 77,
            number: 3,
            group: None,
            check: None,
        },
    )
}

fn a_block_of_a_lower_group_does_not_open(
    block: &[u8; BLOCK_SIZE],
) -> Result<Payload<'_>, PoolError>
    requires { number_at block.now 16 ≡ 8 }
    ensures { IsErrOf result (PoolError.Damaged 5 4194304) }
{
    open(
        block,
        &Expected {
            address: 4_194_304,
            kind: 5,
            guid: 77,
            number: 3,
            group: Some(Group(9)),
            check: None,
        },
    )
}

fn a_block_with_another_check_than_its_pointers_does_not_open(
    block: &[u8; BLOCK_SIZE],
    check: [u8; 32],
) -> Result<Payload<'_>, PoolError>
    requires { part block.now 32 32 ≡ check → ⊥ }
    ensures { IsErrOf result (PoolError.Damaged 5 4194304) }
{
    open(
        block,
        &Expected {
            address: 4_194_304,
            kind: 5,
            guid: 77,
            number: 3,
            group: None,
            check: Some(check),
        },
    )
}

fn bytes_that_are_not_sealed_do_not_open(block: &[u8; BLOCK_SIZE]) -> Result<Payload<'_>, PoolError>
    requires { IsSealed block.now → ⊥ }
    ensures { IsErrOf result (PoolError.Damaged 5 4194304) }
{
    open(
        block,
        &Expected {
            address: 4_194_304,
            kind: 5,
            guid: 77,
            number: 3,
            group: None,
            check: None,
        },
    )
}

// A block that is judged with three others is judged as it is alone.
fn the_second_of_four_blocks_is_accepted_as_alone(
    block: &[u8; BLOCK_SIZE],
    other: &[u8; BLOCK_SIZE],
    expected: &Expected,
) {
    let beside = ReadBlock {
        block: other,
        expected,
    };
    let read = ReadBlock { block, expected };
    let (_, second, _, _) = are_expected(&beside, &read, &beside, &beside);
    let alone = open(block, expected).is_ok();
    prove!(second == alone);
}

fn bytes_that_are_not_sealed_are_not_expected(
    block: &[u8; BLOCK_SIZE],
    other: &[u8; BLOCK_SIZE],
    expected: &Expected,
)
    requires { IsSealed block.now → ⊥ }
{
    let beside = ReadBlock {
        block: other,
        expected,
    };
    let read = ReadBlock { block, expected };
    let (_, _, _, fourth) = are_expected(&beside, &beside, &beside, &read);
    prove!(!fourth);
}

// Of two blocks the one that is expected is accepted, and the other one isn't.
fn of_two_blocks_the_expected_one_is_accepted(
    alloc: Global,
    lanes: Lanes,
    block: &[u8; BLOCK_SIZE],
    other: &[u8; BLOCK_SIZE],
    expected: &Expected,
) -> Result<Vec<bool>, AllocError>
    requires expected { IsExpected block.now expected.now }
    requires damaged { IsSealed other.now → ⊥ }
    ensures { IfOk result (λ found. found.items ≡ true ∷ false ∷ []) }
{
    let read = ReadBlock { block, expected };
    let damaged = ReadBlock {
        block: other,
        expected,
    };
    open_all(alloc, lanes, &[read, damaged])
}

fn two_blocks_have_two_addresses() {
    let frame = Frame::new(Version::One, 77, 2, Group(9));
    let last = frame.is_block_address(4_198_400);
    let past = frame.is_block_address(4_202_496);
    let between = frame.is_block_address(4_194_816);
    prove!(last);
    prove!(!past);
    prove!(!between);
}

fn a_frame_has_the_fields_that_it_was_made_of() {
    let frame = Frame::new(Version::One, 77, 2, Group(9));
    let guid = frame.guid();
    let blocks = frame.blocks();
    let group = frame.group();
    prove!(guid == 77 && blocks == 2 && group.0 == 9);
}

fn a_frame_leads_to_the_number_of_its_version() {
    let frame = Frame::new(Version::One, 77, 2, Group(9));
    let version = frame.version();
    let number = version.number();
    prove!(number == 1);
}
