//! What callers rest on: one function for each promise of this crate's calls, proved from the contract of the call
//! alone. So it is refused as soon as that contract says less.

ghost use Rattle.std.specs.Prelude.{◌≡◌, ◌≤◌, false, None, Some};

use crate::bench::BenchOrder;
use crate::order::Order;
use crate::sizes::size_of;

// What a load by so many workers is asked for.
fn order_by(workers: u32) -> Order
    ensures workers { result.workers ≡ workers }
    ensures writes { result.writes ≡ 200 }
{
    Order {
        workers,
        writes: 200,
        seed: 5,
    }
}

// There are 16 streams, so no more workers.
fn sixteen_workers_may_load_and_seventeen_may_not() {
    let by_16 = order_by(16).is_allowed();
    let by_17 = order_by(17).is_allowed();
    prove!(by_16);
    prove!(!by_17);
}

fn no_load_is_without_a_worker() {
    let by_none = order_by(0).is_allowed();
    prove!(!by_none);
}

fn a_stream_has_at_most_a_million_writes(order: Order) -> bool
    requires { 1000001 ≤ order.writes }
    ensures { result ≡ false }
{
    order.is_allowed()
}

// What a bench of five seconds is asked for.
fn bench_of(workers: u64, bytes: u64) -> BenchOrder
    ensures workers { result.workers ≡ workers }
    ensures bytes { result.bytes ≡ bytes }
    ensures seconds { result.seconds ≡ 5 }
{
    BenchOrder {
        workers,
        bytes,
        seconds: 5,
        is_durable: false,
    }
}

fn the_bounds_of_a_bench_are_allowed() {
    let least = bench_of(1, 1).is_allowed();
    let most = bench_of(64, 64_512).is_allowed();
    prove!(least);
    prove!(most);
}

fn a_bench_outside_its_bounds_is_not_allowed() {
    let idle = bench_of(0, 1).is_allowed();
    let crowded = bench_of(65, 1).is_allowed();
    let empty = bench_of(1, 0).is_allowed();
    let long = bench_of(1, 64_513).is_allowed();
    prove!(!idle);
    prove!(!crowded);
    prove!(!empty);
    prove!(!long);
}

fn no_bench_takes_more_than_a_day(order: BenchOrder) -> bool
    requires { 86401 ≤ order.seconds }
    ensures { result ≡ false }
{
    order.is_allowed()
}

fn a_size_of_64_m_is_67108864_bytes() -> Option<u64>
    ensures { result ≡ Some 67108864 }
{
    size_of("64M")
}

fn digits_alone_count_single_bytes() -> Option<u64>
    ensures { result ≡ Some 8388608 }
{
    size_of("8388608")
}

fn a_small_letter_counts_nothing() -> Option<u64>
    ensures { result ≡ None }
{
    size_of("64m")
}

fn a_letter_without_digits_is_no_size() -> Option<u64>
    ensures { result ≡ None }
{
    size_of("G")
}

// It would be 2^64 bytes.
fn sixteen_million_terabytes_are_no_size() -> Option<u64>
    ensures { result ≡ None }
{
    size_of("16777216T")
}
