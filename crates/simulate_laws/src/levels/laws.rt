ghost use Rattle.std.specs.Prelude.{◌≡◌};
ghost use Rattle.infrastructure_texts.specs.Infrastructures.{Infrastructure};
ghost use Rattle.simulate_laws.specs.levels.Laws.{ArrivalsAreEvents, IsEvent, IsQuiet, MessengersAreHired, MessengersArrive, MessengersTry};
ghost use Rattle.simulate_laws.specs.levels.Laws.{PostsAreEvents, RolesOfEvents, StartsCoupled};
ghost use Rattle.np_syntax.specs.declared.event.Kind.{Kind};
ghost use Rattle.np_syntax.specs.declared.event.Kind.TheVariants as kind;
ghost use Rattle.np_syntax.specs.declared.process.Role.TheVariants as role;

/// The starts of a sound program and of each low program of it are coupled, where each mark stands for itself and no letter
/// is under way.
pub fn law_coupled_starts()
    ensures { (i : Infrastructure) → StartsCoupled i }
{}

/// Each event of the infrastructure, the landing of a post, and the arrival of a messenger are nothing at the high
/// level: the two configurations stay coupled. The opening of a letter hands it over, and all others leave the
/// letters that are under way. Where a messenger tests whether an agent is there, and it is, a new mark stands for
/// that of the messenger from then on; the central infrastructure has no messengers.
pub fn law_quiet()
    ensures others { (i : Infrastructure) (k : Kind) → (k ≡ kind.Local → ⊥) → IsQuiet i k role.Infra }
    ensures infrastructure { (k : Kind) → IsQuiet Infrastructure.central k role.Infra }
    ensures posts_land { (i : Infrastructure) → IsQuiet i kind.Land role.Post }
    ensures messengers_try { (i : Infrastructure) → MessengersTry i }
    ensures messengers_arrive { (i : Infrastructure) → MessengersArrive i }
{}

/// A Send of a post is an event of the high level, and the two configurations stay coupled. Its letter is under way then. So it is where a
/// messenger is made for a post.
pub fn law_posts_are_events()
    ensures sent { (i : Infrastructure) → PostsAreEvents i }
    ensures hired { (i : Infrastructure) → MessengersAreHired i }
{}

/// An event that one process of the source makes alone is the same event of the high level: it is done, makes a
/// channel, binds a value, tests, says a value, or finds an agent at its site or not.
pub fn law_steps_are_events()
    ensures stops { (i : Infrastructure) → IsEvent i kind.Stop }
    ensures news { (i : Infrastructure) → IsEvent i kind.New }
    ensures lets { (i : Infrastructure) → IsEvent i kind.Let }
    ensures ifs { (i : Infrastructure) → IsEvent i kind.If }
    ensures prints { (i : Infrastructure) → IsEvent i kind.Print }
    ensures locals { (i : Infrastructure) → IsEvent i kind.Local }
{}

/// Where the source forks, sends, takes an output, or takes one by a copy of a replicated input, and where what it
/// sent lands, the high level does the same, and the two configurations stay coupled.
pub fn law_meetings_are_events()
    ensures forks { (i : Infrastructure) → IsEvent i kind.Fork }
    ensures sends { (i : Infrastructure) → IsEvent i kind.Send }
    ensures lands { (i : Infrastructure) → IsEvent i kind.Land }
    ensures communications { (i : Infrastructure) → IsEvent i kind.Comm }
    ensures copies { (i : Infrastructure) → IsEvent i kind.Rep }
{}

/// Where an agent is made, departs or arrives for the source, and is no messenger, the same is an event of the high
/// level, and the two configurations stay coupled.
pub fn law_moves_are_events()
    ensures creations { (i : Infrastructure) → IsEvent i kind.Agent }
    ensures departures { (i : Infrastructure) → IsEvent i kind.Depart }
    ensures arrivals { (i : Infrastructure) → ArrivalsAreEvents i }
{}

/// Each event of the low level is of the infrastructure, of a post, or of the source's own, and of a kind that such events
/// have.
pub fn law_roles()
    ensures { (i : Infrastructure) → RolesOfEvents i }
{}
