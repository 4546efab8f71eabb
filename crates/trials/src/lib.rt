// The bench trials: worked examples of the rules, as one statement about the definitions that the contracts cite.
#![tactic(auto)]

ghost use Rattle.trials.specs.Bench.{BenchTrials};

// Every trial comes out as it should.
pub fn bench_trials()
    ensures { BenchTrials }
{}
