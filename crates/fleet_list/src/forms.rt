// Forms in which values are written, one behind another.
ghost use Rattle.std.specs.Prelude.{ℕ, ◌≤◌, List, length};
ghost use Rattle.std.specs.List.{flat_map};
ghost use Rattle.fleet_list.specs.Writes.{Written};

/// A form in which values of a type are written.
pub(crate) trait Form<T> {
    ghost bytes: { T → List ℕ };

    fn put(out: &mut [u8], value: &T) -> usize
        requires { length (bytes value.now) ≤ length out.old }
        ensures { Written (bytes value.now) out.old result out.new };
}

/// Writes values in this form, one behind another.
pub(crate) fn put_each<F: Form<T>, T>(out: &mut [u8], values: &[T]) -> usize
    requires { length (flat_map F.bytes values.now) ≤ length out.old }
    ensures { Written (flat_map F.bytes values.now) out.old result out.new }
{
    let mut at = 0;
    for value in values {
        at += F::put(&mut out[at..], value);
    }
    at
}
