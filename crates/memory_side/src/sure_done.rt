use crate::sure_sink::SureSink;
use crate::sure_source::SureSource;
use std::marker::Model;

/// A link of `SureDoors` that was closed.
#[derive(Debug, Drop)]
pub struct SureDone {
    input: SureSource,
    output: SureSink,
}

impl Model for SureDone {
    ghost use Rattle.std.specs.Prelude.{Some};
    ghost use Rattle.agg_outside.specs.Links.{Closed};

    ghost Value = { Closed };

    ghost view = { λ d. record { source_faults = 0; sink_faults = 0; left = Some d.input.left; written = Some d.output } };
}

impl SureDone {
    ghost use Rattle.std.specs.Prelude.{◌≡◌, Some};

    pub fn new(input: SureSource, output: SureSink) -> SureDone
        ensures { result ≡ record { source_faults = 0; sink_faults = 0; left = Some input.left; written = Some output } }
    {
        SureDone { input, output }
    }

    /// All that the link had written.
    pub fn written(&self) -> &[u8]
        ensures { self.now.written ≡ Some result.now }
    {
        self.output.bytes()
    }
}
