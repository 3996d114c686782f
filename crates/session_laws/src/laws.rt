//! That a draw of a session gives what `make` gives with the edits before it.

ghost use Rattle.std.specs.Prelude.{◌≡◌, ℕ, true, List, length, Option, None, Some, Result, Ok, slice_get};
ghost use Rattle.std.specs.Str.Lines.{lines};
ghost use Rattle.map_base.specs.declared.limit.LimitKind.TheVariants.{File};
ghost use Rattle.map_base.specs.Limits.{is_within};
ghost use Rattle.map_base.specs.Settings.{Choices};
ghost use Rattle.map_method.specs.Methods.{MethodChoices};
ghost use Rattle.transit_feed.specs.Feeds.{Feed};
ghost use Rattle.map_edits.specs.declared.edit.Edit.{Edit};
ghost use Rattle.map_edits.specs.Effects.{choices_after, feed_after};
ghost use Rattle.map_edits.specs.Standing.{edits_in};
ghost use Rattle.map_faults.specs.declared.fault.MakeFault.{MakeFault};
ghost use Rattle.graph_maps.specs.Making.{MapBytes};
ghost use Rattle.map_engine.specs.Making.{make_outcome};
ghost use Rattle.edit_session.specs.Scripts.{draws_in, followed_in};
ghost use Rattle.command_run.specs.Work.{outcome};
ghost use Rattle.command_paths.specs.Paths.{Chosen, NewPaths};
ghost use Rattle.run_status.specs.declared.input.Input.{Input};
ghost use Rattle.command_inputs.specs.declared.loaded.Loaded.{Loaded};
ghost use Rattle.command_inputs.specs.Loading.{load_work};
ghost use Rattle.map_commands.specs.MapWorks.{made_at, make_work};
ghost use Rattle.session_laws.specs.Before.{edits_before};
ghost use Rattle.session_laws.specs.Works.{edited, edits_given, with_edits};

/// Draw k of a script gives what `make` gives with a file of edits that has the script's lines up to that draw, but for the
/// draws: such a file, however its lines end, gives exactly the edits that stand at the draw, and the map, or the refusal,
/// is that of the tables and the settings that these edits make.
pub fn each_draw_is_a_make_with_its_edits()
    ensures edits { (feed : Feed) (script file : List ℕ) (k : ℕ) (standing : List Edit)
        → slice_get (followed_in feed script).draws k ≡ Some standing → lines file ≡ edits_before k (lines script)
        → edits_in feed file ≡ Ok standing }
    ensures made { (feed : Feed) (choices : Choices) (method : MethodChoices) (script file : List ℕ) (k : ℕ)
        (made : Result MapBytes MakeFault) → slice_get (draws_in feed choices method script) k ≡ Some made
        → lines file ≡ edits_before k (lines script)
        → (edits : List Edit) × (edits_in feed file ≡ Ok edits)
        × (made ≡ make_outcome (feed_after edits feed) (choices_after edits choices) method) }
{}

/// Where a session over inputs has no file of edits, draw k of its script gives what the work of `make` comes to over the same
/// inputs, with such a file of edits: the same map and certificate, and the page of its poster, or the same refusal.
pub fn each_draw_is_what_make_comes_to()
    ensures { (chosen : Chosen) (paths : NewPaths) (given : Input → Option (List ℕ)) (loaded : Loaded) (path script file : List ℕ)
        (k : ℕ) (made : Result MapBytes MakeFault) → chosen.edits ≡ None → outcome (load_work chosen) given ≡ Ok loaded
        → slice_get (draws_in loaded.tables loaded.settings loaded.method script) k ≡ Some made
        → lines file ≡ edits_before k (lines script) → is_within File (length file) ≡ true
        → (edits : List Edit) × (edits_in loaded.tables file ≡ Ok edits)
        × (outcome (make_work (with_edits chosen path) paths) (edits_given given file) ≡ made_at paths (edited loaded edits) made) }
{}
