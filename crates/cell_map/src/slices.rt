// Slices that stand at equal distances.
ghost use Rattle.std.specs.Prelude.{ℕ, ◌≡◌, ◌<◌, ◌≤◌, ◌*◌, ◌+◌, ◌/◌, ◌%◌, ◌^◌, ◌-◌, ◌↔◌, ◌⊎◌, IsTrue, IfNone, IfSome};
ghost use Rattle.cell_map.specs.Slices.{SliceMeets, SlicesMeet, IsIn};

/// Slices of one length, each an interval after the one before it.
#[derive(Clone, Copy)]
pub struct Slices {
    pub start: u64,
    pub len: u64,
    pub count: u64,
}

// Whether an interval meets one of the slices: the last slice that begins before its end decides.
fn slice_meets(start: u64, len: u64, slices: Slices, interval: u64) -> bool
    requires start { start < 2 ^ 32 }
    requires len { (0 < len) × (len < 2 ^ 32) }
    requires slices { (slices.start < 2 ^ 32) × (0 < slices.len) × (slices.len < 2 ^ 32) × (0 < slices.count) }
    requires interval { interval < 2 ^ 32 }
    ensures { IsTrue result ↔ SliceMeets start len slices interval }
{
    if start + len <= slices.start {
        return false;
    }
    if interval == 0 {
        return start < slices.start + slices.len;
    }
    let last = (slices.count - 1).min((start + len - slices.start - 1) / interval);
    start < slices.start + last * interval + slices.len
}

/// Whether two slices meet, one of each.
pub fn slices_meet(a: Slices, b: Slices, interval: u64) -> bool
    requires a { (a.start < 2 ^ 32) × (0 < a.len) × (a.len < 2 ^ 32) × (0 < a.count) }
    requires b { (b.start < 2 ^ 32) × (0 < b.len) × (b.len < 2 ^ 32) × (0 < b.count) }
    requires interval { interval < 2 ^ 32 }
    ensures { IsTrue result ↔ SlicesMeet a b interval }
{
    slice_meets(a.start, a.len, b, interval) || slice_meets(b.start, b.len, a, interval)
}

/// The slice and the place in it that stand at an address.
pub fn locate(slices: Slices, interval: u64, address: u64) -> Option<(u64, u64)>
    requires apart { (slices.count ≡ 1) ⊎ (slices.len ≤ interval) }
    requires some { 0 < slices.count }
    ensures none { IfNone result ((k t : ℕ) → k < slices.count → t < slices.len
        → ¬ (slices.start + k * interval + t ≡ address)) }
    ensures some { IfSome result (λ x. (x.0 < slices.count) × (x.1 < slices.len)
        × (slices.start + x.0 * interval + x.1 ≡ address)) }
{
    if address < slices.start {
        return None;
    }
    let rest = address - slices.start;
    if slices.count == 1 {
        if rest >= slices.len {
            return None;
        }
        return Some((0, rest));
    }
    if slices.len == 0 {
        return None;
    }
    let slice = rest / interval;
    if slice >= slices.count {
        return None;
    }
    let inner = rest % interval;
    if inner >= slices.len {
        return None;
    }
    Some((slice, inner))
}

/// How many addresses from one on, `limit` at most, are in none of the slices: the greatest such number.
pub fn free(slices: Slices, interval: u64, address: u64, limit: u64) -> u64
    requires apart { (slices.count ≡ 1) ⊎ (slices.len ≤ interval) }
    requires some { 0 < slices.count }
    ensures most { result ≤ limit }
    ensures none { (k t : ℕ) → k < slices.count → t < slices.len → address ≤ slices.start + k * interval + t
        → address + result ≤ slices.start + k * interval + t }
    ensures greatest { result < limit → IsIn slices interval (address + result) }
{
    if slices.len == 0 {
        return limit;
    }
    if address < slices.start {
        return limit.min(slices.start - address);
    }
    let rest = address - slices.start;
    if slices.count == 1 {
        if rest < slices.len {
            return 0;
        }
        return limit;
    }
    let slice = rest / interval;
    if slice >= slices.count {
        return limit;
    }
    let inner = rest % interval;
    if inner < slices.len {
        return 0;
    }
    if slice + 1 == slices.count {
        return limit;
    }
    limit.min(interval - inner)
}
