ghost use Rattle.std.specs.Prelude.{◌≡◌, ◌++◌};
ghost use Rattle.ports.specs.Handing.{Handed, handed};

use super::port::Port;

// Hands frames on from one port to another, in their order, until one of the two declines. None is lost: what waits
// there and then here is what waited there and then here before.
pub fn hand_over<P: Port, Q: Port>(from: &mut P, to: &mut Q)
    ensures handed { ◌≡◌ {A = Handed} (record { from = P.Port.waiting from.new; pause = P.Port.pause from.new; to = Q.Port.waiting to.new }) (handed (P.Port.waiting from.old) (P.Port.pause from.old) (P.Port.gap from.old) (Q.Port.most to.old) (Q.Port.waiting to.old)) }
    ensures order { Q.Port.waiting to.new ++ P.Port.waiting from.new ≡ Q.Port.waiting to.old ++ P.Port.waiting from.old }
    ensures from_most { P.Port.most from.new ≡ P.Port.most from.old }
    ensures from_gap { P.Port.gap from.new ≡ P.Port.gap from.old }
    ensures to_pause { Q.Port.pause to.new ≡ Q.Port.pause to.old }
    ensures to_most { Q.Port.most to.new ≡ Q.Port.most to.old }
    ensures to_gap { Q.Port.gap to.new ≡ Q.Port.gap to.old }
{
    while to.room() > 0
        && let Some(frame) = from.take()
    {
        let _ = to.put(frame);
    }
}
