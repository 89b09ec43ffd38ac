// Numbers held at the limit, the largest that 32 bits show. A product is worked out in 64 bits: `saturating_mul` divides, and the filler multiplies most.
ghost use Rattle.std.specs.Prelude.{◌≡◌, ◌+◌, ◌*◌};
ghost use Rattle.table.specs.Table.{held};

use super::LIMIT;

pub fn hold(x: u64) -> u32
    ensures { result ≡ held x }
{
    x.min(LIMIT as u64) as u32
}

pub fn held_sum(a: u32, b: u32) -> u32
    ensures { result ≡ held (a + b) }
{
    a.saturating_add(b)
}

pub fn held_product(a: u32, b: u32) -> u32
    ensures { result ≡ held (a * b) }
{
    hold(a as u64 * b as u64)
}
