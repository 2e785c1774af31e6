ghost use Rattle.engine.specs.Theorems.{CallsExtend, SecondCall, EqualHandles, CallCounted, CallDecided};

// Within one graph: handles last, equal functions get equal handles, a call that is made again enters nothing,
// and what a call needs of the table is determined and counted.
pub fn calls_agree()
    ensures extend { CallsExtend }
    ensures equal { EqualHandles }
    ensures again { SecondCall }
    ensures counted { CallCounted }
    ensures decided { CallDecided }
{}
