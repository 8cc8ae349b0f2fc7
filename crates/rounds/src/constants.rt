// The planes of each round's constant, from Table 1.1: what is looked up in it is at a public place.
ghost use Rattle.std.specs.Prelude.{◌≡◌, ◌+◌, ◌*◌, ◌≤◌, ◌<◌};
ghost use Rattle.pi.specs.Table.{table};
ghost use Rattle.rounds.specs.Rounds.{entries_at, halves, Made};

use super::table;

// Four entries of the table from `at` on, the first lowest.
fn entries(t: &[u8; 256], at: usize) -> u32
    requires { (t.now ≡ table) × (at + 4 ≤ 256) }
    ensures { result ≡ entries_at at }
{
    u32::from_le_bytes([t[at], t[at + 1], t[at + 2], t[at + 3]])
}

// Row 0 of a plane: the lowest bit of each byte.
const ROW_0: u32 = 0x01010101;

// The sixteen halves of round r, behind those of the rounds before it.
fn put_round(k: &mut [u32; 192], t: &[u8; 256], r: usize)
    requires { (t.now ≡ table) × (r < 12) × Made (r * 16) k.old }
    ensures { Made (r * 16 + 16) k.new }
{
    let low = entries(t, r * 8);
    let high = entries(t, r * 8 + 4);
    for b in 0..8usize {
        k[r * 16 + 2 * b] = (low >> b) & ROW_0;
        k[r * 16 + 2 * b + 1] = (high >> b) & ROW_0;
    }
}

// Eight words a round, each as two halves, the low one first. LLVM works it all out when it compiles: by a loop over
// the rounds π takes 4,837 instructions and not 4,158, by whole words 4,275.
#[tactic(auto, using(crate::proofs::ConstantLaws::all_made), unfolding(pi::specs::Table::table))]
pub fn constants() -> [u32; 192]
    ensures { result ≡ halves }
{
    let t = table::TABLE;
    let mut k = [0u32; 192];
    put_round(&mut k, &t, 0);
    put_round(&mut k, &t, 1);
    put_round(&mut k, &t, 2);
    put_round(&mut k, &t, 3);
    put_round(&mut k, &t, 4);
    put_round(&mut k, &t, 5);
    put_round(&mut k, &t, 6);
    put_round(&mut k, &t, 7);
    put_round(&mut k, &t, 8);
    put_round(&mut k, &t, 9);
    put_round(&mut k, &t, 10);
    put_round(&mut k, &t, 11);
    k
}
