// Heights rounded to rows.
#![tactic(auto)]

ghost use Rattle.std.specs.Prelude.{◌≡◌, ◌+◌, ◌-◌, ◌/◌, ◌≤◌, ◌<◌, min, max};

// The least of two heights, rounded down.
pub fn foot(p: u64, q: u64, d: u64) -> u64
    requires { 0 < d }
    ensures { result ≡ min p q / d }
{
    p.min(q) / d
}

// The greatest of two heights, rounded up, at most 16,000.
pub fn top(p: u64, q: u64, d: u64) -> u64
    requires { (p ≤ 256000000) × (q ≤ 256000000) × (0 < d) × (d ≤ 16000) }
    ensures { result ≡ min 16000 ((max p q + (d - 1)) / d) }
{
    let c = p.max(q) + (d - 1);
    if c < 16000 * d { c / d } else { 16000 }
}
