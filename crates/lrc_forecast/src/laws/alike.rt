//! A law of alike states, as a book and one that begins in its image have them.

ghost use Rattle.std.specs.Prelude.{◌≡◌, List};
ghost use Rattle.lrc_code.specs.declared.numbers.NodeNo.{NodeNo};
ghost use Rattle.lrc_topology.specs.declared.NodeInfo.{NodeInfo};
ghost use Rattle.lrc_rules.specs.States.{State};
ghost use Rattle.lrc_rules.specs.Alike.{AreAlike};
ghost use Rattle.lrc_rules.specs.Goodness.{AreSeated};
ghost use Rattle.lrc_forecast.specs.declared.outlook.Outage.{Outage};
ghost use Rattle.lrc_forecast.specs.Forecasts.{forecast};

/// Two states that are alike, and that meet `AreSeated`, have the same forecast of each outage of any nodes.
pub fn alike_states_have_one_forecast()
    ensures { (nodes : List NodeInfo) (st other : State) (outage : Outage) (ns : List NodeNo)
        → AreSeated nodes st → AreSeated nodes other → AreAlike st other
        → forecast nodes st outage ns ≡ forecast nodes other outage ns }
{}
