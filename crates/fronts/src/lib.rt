// The front of a lent list: a number of its elements, at most all of them, so that `&s[..n]` can be lent without more.
#![tactic(auto)]

ghost use Rattle.std.specs.Prelude.{ℕ, ◌≡◌, ◌≤◌, ◌<◌, Some, length, min, slice_get, take};
ghost use Rattle.fronts.specs.Front.{Front};

pub fn front_len<T>(s: &[T], n: usize) -> usize
    ensures front { Front result s.now }
    ensures upper_bound { result ≤ n }
    ensures value { result ≡ min n (length s.now) }
{
    n.min(s.len())
}

// The front filled with one value.
pub fn fill<T: Copy>(s: &mut [T], n: usize, value: T) -> usize
    ensures front { Front result s.new }
    ensures upper_bound { result ≤ n }
    ensures filled { (k : ℕ) → k < result → slice_get s.new k ≡ Some value }
{
    let end = front_len(s, n);
    for k in 0..end {
        s[k] = value;
    }
    end
}

// A list put at the front of another, as far as that reaches.
pub fn copy<T: Copy>(from: &[T], to: &mut [T]) -> usize
    ensures front { Front result to.new }
    ensures copied { take result to.new ≡ take result from.now }
{
    let end = front_len(to, from.len());
    to[..end].copy_from_slice(&from[..end]);
    end
}
