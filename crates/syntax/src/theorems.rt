ghost use Rattle.syntax.specs.Promises.{ReadRight, ReadAll, ReadOne, Restored, ReadSound, ReadLow, ReadTree, RefusedExactly, AcceptedExactly, Answered, OneCount, LimitRight};

// The theorems of reading.
pub fn reading_stands()
    ensures right { ReadRight }
    ensures all { ReadAll }
    ensures one { ReadOne }
    ensures restored { Restored }
    ensures sound { ReadSound }
    ensures low { ReadLow }
    ensures tree { ReadTree }
    ensures refused { RefusedExactly }
    ensures accepted { AcceptedExactly }
    ensures answered { Answered }
    ensures count { OneCount }
    ensures limit { LimitRight }
{}
