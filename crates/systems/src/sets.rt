ghost use Rattle.std.specs.Prelude.{◌≡◌, ◌&&◌, nat_lt};
ghost use Rattle.systems.specs.Limits.{max_events};
ghost use Rattle.systems.specs.Meaning.{member};

// Whether the number is in the set, whose bit k stands for the number k; a number from 64 up is in none.
pub fn has(set: u64, number: u8) -> bool
    ensures is { result ≡ member set number }
    ensures below { result ≡ (nat_lt number max_events && member set number) }
{
    set.checked_shr(u32::from(number)).unwrap_or(0) % 2 == 1
}
