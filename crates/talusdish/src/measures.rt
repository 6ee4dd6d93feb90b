// The capacities that design rules give: document 02, K1.
ghost use Rattle.std.specs.Prelude.{◌≡◌};
ghost use Rattle.rules.specs.Rules.{Answer as Ruling, refusal, Answered};
ghost use Rattle.talusdish.specs.Stored.{figures, stored};

// The answer's word. Figures are stored through the five references; a refusal stores nothing.
#[unsafe(no_mangle)]
pub extern "C" fn talusdish_rules(
    p: u64,
    d: u64,
    w: u64,
    s: u64,
    o: &mut u64,
    remainder: &mut u64,
    k: &mut u64,
    left: &mut u64,
    diagonal: &mut u64,
) -> u64
    ensures { (a : Ruling) × (result ≡ refusal a) × Answered p d w s a
        × (figures o.new remainder.new k.new left.new diagonal.new
        ≡ stored a (figures o.old remainder.old k.old left.old diagonal.old)) }
{
    match rules::rules(p, d, w, s) {
        Ok(f) => {
            *o = f.orthogonal;
            *remainder = f.remainder;
            *k = f.count;
            *left = f.left;
            *diagonal = f.diagonal;
            0
        }
        Err(refusal) => refusal.number(),
    }
}
