// Set-up: the fresh table of a problem whose words passed the test, under the Rust's names. `items` and `opts` have what `lib.rs` has in the
// traits of these names. Table and n stay parameters, as in `links`.
#![tactic(auto)]

mod items;
mod opts;

ghost use Rattle.std.specs.Prelude.{◌≡◌, ◌<◌, length};
ghost use Rattle.rules.specs.Problem.{cut, fault, meant, table_length};
ghost use Rattle.rules.specs.Links.{fresh};
ghost use Rattle.problem.specs.Measured.{Measured};

use rules::Sizes;

// The words that a table of these sizes takes.
pub fn table_words(s: Sizes) -> usize
    requires { table_length s < 2147483648 }
    ensures { result ≡ table_length s }
{
    let n = s.np + s.ns + 2;
    2 * n + 4 * (n + s.entries + s.kept)
}

// Writes the table of the problem whose sizes are s.
#[tactic(auto, using(crate::proofs::OptionLaws::all_laws))]
pub fn init_links(t: &mut [i32], problem: &[i32], s: Sizes)
    requires measured { Measured problem.now s }
    requires problem_value { fault (cut problem.now) ≡ 0 }
    requires t_len { length t.old ≡ table_length s }
    requires s_bound { (table_length s < 2147483648) × (s.options < 2147483648) }
    ensures { t.new ≡ fresh (meant (cut problem.now)) }
{
    items::init_links(t, s.np, s.ns);
    opts::init_links(t, problem, s, s.options);
}
