//! Runs on the bench as text.
ghost use Rattle.promises_texts.specs.Examples.{BenchExamples};

/// What `bench` prints, byte for byte, where it runs nothing, and which arguments it takes.
#[tactic(auto, using(benchtext::proofs::Examples::examples))]
pub fn bench_examples()
    ensures { BenchExamples }
{}
