//! Each way of a pair is a session by itself.

ghost use Rattle.std.specs.Prelude.{◌≡◌, ℕ, ◌<◌, List, Option};
ghost use Rattle.law_model.specs.Common.{Scenario, scenario_by, is_lost, Told, table_of, return_packet};
ghost use Rattle.law_model.specs.Common.{cells_before, payload_of, rows_of, IsSound, container_of};
ghost use Rattle.law_model.specs.declared.script_types.Script.{Script};
ghost use Rattle.law_model.specs.session.Scenario.{packets_in};
ghost use Rattle.law_pair.specs.Pair.{IsPair, is_unheard, way_of};
ghost use Rattle.law_pair.specs.OtherTelling.{telling_of};

/// A session doesn't depend on what its packets tell: its return cells, its tables, the octets of the
/// stream that its frames and its containers carry, and which rows are whole are the same.
pub fn telling_law()
    ensures cells { (scenario : Scenario) (tells : List Told) (n : ℕ) →
        cells_before (telling_of scenario tells) n ≡ cells_before scenario n }
    ensures packets { (scenario : Scenario) (tells : List Told)
        (cells : List (Option Told)) (k : ℕ) →
        return_packet (telling_of scenario tells) cells k ≡ return_packet scenario cells k }
    ensures tables { (scenario : Scenario) (tells : List Told)
        (cells : List (Option Told)) (j : ℕ) →
        table_of (telling_of scenario tells) cells j ≡ table_of scenario cells j }
    ensures payload { (scenario : Scenario) (tells : List Told)
        (cells : List (Option Told)) (t : ℕ) →
        payload_of (telling_of scenario tells) cells t ≡ payload_of scenario cells t }
    ensures containers { (scenario : Scenario) (tells : List Told)
        (cells : List (Option Told)) (line t : ℕ) →
        (container_of (telling_of scenario tells) cells line t).payload
        ≡ (container_of scenario cells line t).payload }
    ensures rows { (scenario : Scenario) (tells : List Told)
        (cells : List (Option Told)) (n : ℕ) →
        rows_of (telling_of scenario tells) cells n ≡ rows_of scenario cells n }
{}

/// The ways of a pair are sound legs, each with the options of its own script, and a return packet of a way is
/// lost exactly where no line of the other way has a readable packet that carries it.
pub fn way_law()
    ensures there { (there back : Script) → IsPair there back → IsSound (way_of there back) }
    ensures back { (there back : Script) → IsPair there back → IsSound (way_of back there) }
    ensures options { (script other : Script) →
        (scenario_by (way_of script other)).options ≡ script.config.options }
    ensures turned { (there back : Script) → IsPair there back → IsPair back there }
    ensures lost { (script other : Script) (k : ℕ) → k < packets_in script.config.ticks →
        is_lost (scenario_by (way_of script other)) k ≡ is_unheard other k }
{}
