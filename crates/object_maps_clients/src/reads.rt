//! What callers rest on of reads: each gives the bytes of the object that was asked for, at their places.

ghost use Rattle.std.specs.Prelude.{◌≡◌, ◌∷◌, [], Some, true};
ghost use Rattle.std.specs.FinMap as finite;

use base::ObjectId;
use tree_blocks::ObjectSource;

// An object that is there is found.
fn an_object_of_three_bytes_is_there<O: ObjectSource>(objects: &O) -> bool
    requires { finite.get (O.objects objects.now) 7 ≡ Some (1 ∷ 2 ∷ 3 ∷ []) }
    ensures { result ≡ true }
{
    objects.has(ObjectId(7))
}

// It has its length, too.
fn an_object_of_three_bytes_has_this_length<O: ObjectSource>(objects: &O) -> Option<u64>
    requires { finite.get (O.objects objects.now) 7 ≡ Some (1 ∷ 2 ∷ 3 ∷ []) }
    ensures { result ≡ Some 3 }
{
    objects.length(ObjectId(7))
}
