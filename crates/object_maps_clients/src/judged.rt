//! What callers rest on of operations that are judged, and of digests.

ghost use Rattle.std.specs.Prelude.{◌≡◌, ◌∷◌, [], None, Some};
ghost use Rattle.std.specs.FinMap as finite;

use base::{Bytes, ObjectId, Op, PoolError};
use contents::judge;
use tree_blocks::ObjectSource;

// An object that an earlier operation created may be removed.
fn a_created_object_may_be_removed<O: ObjectSource>(objects: &O) -> Result<(), PoolError>
    requires { finite.get (O.objects objects.now) 7 ≡ None }
    ensures { result ≡ Ok tt }
{
    judge(objects, &[Op::Create(ObjectId(7)), Op::Remove(ObjectId(7))])
}

// An object that is there is not created.
fn an_object_is_created_once<O: ObjectSource>(objects: &O) -> Result<(), PoolError>
    requires { finite.get (O.objects objects.now) 7 ≡ Some [] }
    ensures { result ≡ Err PoolError.Exists }
{
    judge(objects, &[Op::Create(ObjectId(7))])
}

// A new name, which needs no object, is not refused.
fn a_new_name_is_not_refused<O: ObjectSource>(objects: &O, name: Bytes) -> Result<(), PoolError>
    requires { name ≡ 97 ∷ [] }
    ensures { result ≡ Ok tt }
{
    judge(objects, &[Op::SetName(name)])
}

// An object that an earlier operation removed has no length to set.
fn a_removed_object_is_not_there<O: ObjectSource>(objects: &O) -> Result<(), PoolError>
    requires { finite.get (O.objects objects.now) 7 ≡ Some [] }
    ensures { result ≡ Err PoolError.NoObject }
{
    judge(
        objects,
        &[Op::Remove(ObjectId(7)), Op::SetLength(ObjectId(7), 5)],
    )
}
