// `Items::init_links`: the rings of primary and of secondary items. Item i's left link stands at 2 i, its right link after it.
ghost use Rattle.std.specs.Prelude.{◌+◌, ◌*◌, ◌≤◌, ◌<◌, length};
ghost use Rattle.rules.specs.Links.{fresh};
ghost use Rattle.init.specs.SetUp.{Alike, bare};

use words::put_link;

// Links 0 to n + 1 in a row, and makes two rings of it: 0 is the head of the primary items, n + 1 that of the others.
pub fn init_links(t: &mut [i32], np: usize, ns: usize)
    requires ns_bound { np + ns + 1 < 2147483648 }
    requires ns_in_bounds { 2 * (np + ns + 2) ≤ length t.old }
    ensures { Alike (2 * (np + ns + 2)) t.new (fresh (bare np ns)) }
{
    let n = np + ns;
    for i in 0..n + 1 {
        put_link(t, 2 * i + 1, i + 1);
        put_link(t, 2 * (i + 1), i);
    }
    put_link(t, 2 * (np + 1), n + 1);
    put_link(t, 2 * (n + 1) + 1, np + 1);
    put_link(t, 0, np);
    put_link(t, 2 * np + 1, 0);
}
