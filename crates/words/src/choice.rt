// One of two values, by value: the compiler then keeps both in registers (docs/PERFORMANCE.md).
ghost use Rattle.std.specs.Prelude.{◌≡◌, if◌then◌else◌};

// The new one where it is chosen.
pub fn chosen<T: Copy>(old: T, yes: bool, new: T) -> T
    ensures { result ≡ (if yes then new else old) }
{
    if yes { new } else { old }
}
