//! What follows from how the program ends.
ghost use Rattle.taostore.specs.Laws.{HaveCauses, HaveAnswers, TouchLittle, PlayIsProgram};

use tao_base::{Sink, Source};

/// Each answer of the program has its cause, and each cause has its answer; the rest stays as it was.
pub fn endings<S: Source, K: Sink>()
    ensures causes { HaveCauses S.left S.faults K.put K.faults }
    ensures answers { HaveAnswers S.left S.faults K.put K.faults }
    ensures rest { TouchLittle S.left S.faults K.put K.faults }
    ensures play { PlayIsProgram S.left S.faults K.put K.faults }
{}
