//! The law of lines and samples.
ghost use Rattle.bus_lines.specs.Sampling.{SamplingGivesBack};

/// The lines that are drawn for any items, sampled where a strobe rises, are the cycles of these items, each once and in order.
#[tactic(auto, using(crate::proofs::Sampled::sampling_gives_back))]
pub fn sampling_gives_back()
    ensures { SamplingGivesBack }
{}
