//! What holds of all open scopes.

ghost use Rattle.std.specs.Prelude.{◌↔◌, ◌≡◌, ◌++◌, ℕ};
ghost use Rattle.std.specs.Prelude.{List as list_of};
ghost use Rattle.c_scopes.specs.Scopes.{OpenScopes, IsTypedefName};
ghost use Rattle.c_scopes.specs.Events.{Event, IsTypedefAt, after_events, events_to};

/// What the open scopes say of a name, behind some events, is what the intervals of its
/// declarations say.
pub fn law_scopes_say_what_intervals_say()
    ensures { (open_scopes : OpenScopes) →
        (before : list_of Event) (name : list_of ℕ) →
        IsTypedefName (after_events open_scopes before) name
        ↔ IsTypedefAt (events_to open_scopes ++ before) name }
{}
