//! Lists of bytes.

ghost use Rattle.std.specs.Prelude.{◌≡◌, ◌+◌, ◌≤◌, ◌++◌, length};
ghost use Rattle.arrayvec.specs.ArrayVec.{array_vec_len};

use arrayvec::ArrayVec;

/// The data bytes of an answer: a block has at most 35 beside its sum.
pub(crate) type Bytes = ArrayVec<u8, 35>;

/// The items as a list.
pub(crate) fn list_of<T: Copy + Default, const CAP: usize>(items: &[T]) -> ArrayVec<T, CAP>
    requires { length items.now ≤ CAP }
    ensures { result.items ≡ items.now }
{
    let mut list = ArrayVec::new();
    let _ = list.try_extend_from_slice(items);
    list
}

/// Adds bytes at the end.
pub(crate) fn append(bytes: &mut Bytes, more: &[u8])
    requires { array_vec_len bytes.old + length more.now ≤ 35 }
    ensures { bytes.new.items ≡ bytes.old.items ++ more.now }
{
    let _ = bytes.try_extend_from_slice(more);
}
