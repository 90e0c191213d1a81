// Two rows of a block become one row of pairs, as lines read their weights: a column's numbers in rows 2k and 2k + 1 stand side
// by side. So a line whose inputs are weights sums down the columns of the block.
ghost use Rattle.std.specs.Prelude.{◌≡◌, ◌+◌, ◌*◌, ◌≤◌, ◌<◌, length};
ghost use Rattle.algebra.specs.Lists.{at, tabulate};
ghost use Rattle.product.specs.Product.{Laid};
ghost use Rattle.layout.specs.Zip.{Rows, zipped_at};

// The row from a on and the one w behind it.
fn zip_row(c: &[i16], a: usize, w: usize, n: usize, z: &mut [i16])
    requires { (n ≤ w) × ((a + w + n ≤ length c.now) × (length z.old ≡ 2 * n)) }
    ensures { z.new ≡ tabulate (2 * n) (zipped_at c.now a w) }
{
    for x in 0..n {
        z[2 * x] = c[a + x];
        z[2 * x + 1] = c[a + w + x];
    }
}

// The first n columns of 2 * pairs rows of w.
pub fn zip(c: &[i16], w: usize, pairs: usize, n: usize, z: &mut [i16])
    requires { Rows pairs n w c.now z.old }
    ensures { Laid n pairs 2 (2 * n) (λ i x. at c.now (x + i * w)) z.new }
{
    let m = 2 * n;
    for k in 0..pairs {
        let o = k * m;
        let e = o + m;
        zip_row(c, 2 * k * w, w, n, &mut z[o..e]);
    }
}
