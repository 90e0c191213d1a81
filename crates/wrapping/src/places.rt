// "each of 0..N-1 once", for refusal 21.
ghost use Rattle.std.specs.Prelude.{◌≡◌};
ghost use Rattle.wrapping.specs.Order.{times, is_order};

// How often k stands in the order.
fn times_of(order: &[u32], k: usize) -> usize
    ensures { result ≡ times k order.now }
{
    let mut t: usize = 0;
    for place in order {
        if *place as usize == k {
            t += 1;
        }
    }
    t
}

pub fn is_order(order: &[u32], n: usize) -> bool
    ensures { result ≡ is_order n order.now }
{
    if order.len() != n {
        return false;
    }
    for k in 0..n {
        if times_of(order, k) != 1 {
            return false;
        }
    }
    true
}
