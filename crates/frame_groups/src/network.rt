// What is fixed for a network.
use bit_slice::OutOfMemory;
use l1_signal::{L1Conf, conf_of};
use plp_config::Plan;
use std::alloc::Global;
use std::marker::Model;

/// A plan, with the configurable part of its L1-post. It is seen as the configuration.
#[derive(Drop)]
pub struct Network<'p> {
    plan: &'p Plan,
    conf: L1Conf,
}

impl<'p> Model for Network<'p> {
    ghost use Rattle.std.specs.Prelude.{◌≡◌};
    ghost use Rattle.plp_config.specs.declared.config.Config.{Config};
    ghost use Rattle.l1_signal.specs.L1Of.{conf_of};

    ghost Value = { Config };

    ghost view = { λ n. n.plan.now };

    ghost invariant = { λ n. n.conf ≡ conf_of n.plan.now };
}

impl<'p> Network<'p> {
    ghost use Rattle.std.specs.Prelude.{◌≡◌, IfOk};
    ghost use Rattle.l1_signal.specs.L1Of.{conf_of};

    /// That of a plan. It takes the memory of the configurable part.
    pub fn open(alloc: Global, plan: &'p Plan) -> Result<Network<'p>, OutOfMemory>
        ensures { IfOk result (λ network. network ≡ plan.now) }
    {
        let conf = conf_of(alloc, plan)?;
        Ok(Network { plan, conf })
    }

    /// The plan.
    pub fn plan(&self) -> &'p Plan
        ensures { result.now ≡ self.now }
    {
        self.plan
    }

    /// The configurable part of every frame.
    pub fn conf(&self) -> &L1Conf
        ensures { result.now ≡ conf_of self.now }
    {
        &self.conf
    }
}
