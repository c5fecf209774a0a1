ghost use Rattle.actor_ground.specs.CallEnds.{CallsEndSo, EndsAreOfCalls};

/// A law: an event of a call that agrees with the disk before it is the call carried out there, or cut short, or a
/// load for which memory ran out; and each of these agrees with the disk. A load is answered by what stands.
pub fn calls_end_so()
    ensures ends { CallsEndSo }
    ensures honest { EndsAreOfCalls }
{}
