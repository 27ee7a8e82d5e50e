//! What callers rest on of places: the kind and the number of the block at each.

ghost use Rattle.std.specs.Prelude.{◌≡◌};

use base::ObjectId;
use tree_blocks::{BlockPlace, RecordPlace};

// The second strip of object 7 has the number 5,299, and its fourth record the number 445,119.
fn a_record_has_the_number_of_its_block() -> u64
    ensures { result ≡ 445119 }
{
    BlockPlace::Data(5_299, 3).number()
}

fn a_record_of_a_later_strip_has_its_number() -> usize
    ensures { result ≡ 87 }
{
    let place = RecordPlace {
        id: ObjectId(7),
        strip: 1,
        index: 3,
    };
    place.number()
}

// The block of a record has kind 5, and a top kind 7.
fn a_record_has_kind_5(place: RecordPlace) -> u64
    requires id { place.id.0 ≡ 7 }
    requires strip { place.strip ≡ 1 }
    requires index { place.index ≡ 3 }
    ensures { result ≡ 5 }
{
    place.data_place().kind()
}

fn a_top_has_kind_7() -> u64
    ensures { result ≡ 7 }
{
    BlockPlace::Top(ObjectId(7)).kind()
}
