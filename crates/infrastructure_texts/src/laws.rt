//! Each table, filled in, is the text of its definition.

ghost use Rattle.std.specs.Prelude.{◌≡◌, ◌∷◌, [], ℕ};
ghost use Rattle.np_syntax.specs.declared.expression.Expr.{Expr};
ghost use Rattle.np_syntax.specs.declared.process.Proc.{Proc};
ghost use Rattle.infrastructure_texts.specs.Pieces.{site};
ghost use Rattle.infrastructure_texts.specs.Texts as text;
ghost use Rattle.infrastructure_texts.specs.Daemon.{daemon_text};
ghost use Rattle.infrastructure_texts.specs.CacheTexts as cached;
ghost use Rattle.infrastructure_texts.specs.CacheDaemon.{cached_daemon};
ghost use Rattle.infrastructure_texts.specs.Filling.{hand, filled};

use super::tables::{
    CACHED_CREATION, CACHED_DAEMON, CACHED_MAIN, CACHED_POST, CREATION, DAEMON, MAIN, MIGRATION,
    POST,
};

/// Without caches: in a program of n sites, of which main's is s, for the source node k in the agent a.
pub fn law_central_tables()
    ensures daemon { (n s x : ℕ) → filled (hand n 0 [] x (site s ∷ [])) DAEMON.now [] ≡ daemon_text n s x }
    ensures post { (n k x : ℕ) (b c v : Expr)
        → filled (hand n k [] x (b ∷ c ∷ v ∷ [])) POST.now [] ≡ text.post_text n k b c v }
    ensures migration { (n k x : ℕ) (a e : Expr) (p : Proc)
        → filled (hand n k [] x (a ∷ e ∷ [])) MIGRATION.now (p ∷ []) ≡ text.migrate_text n k a e p }
    ensures creation { (n k b s l t x : ℕ) (a : Expr) (p q : Proc)
        → filled (hand n k (b ∷ s ∷ l ∷ t ∷ []) x (a ∷ [])) CREATION.now (q ∷ p ∷ []) ≡ text.agent_text n k a b s l t p q }
    ensures main { (n s l t x : ℕ) (p : Proc)
        → filled (hand n 0 (l ∷ t ∷ []) x (site s ∷ [])) MAIN.now (p ∷ []) ≡ text.main_text n s l t p }
{}

/// With caches.
pub fn law_cached_tables()
    ensures daemon { (n s x : ℕ) → filled (hand n 0 [] x []) CACHED_DAEMON.now (daemon_text n s x ∷ []) ≡ cached_daemon n s x }
    ensures post { (n k x : ℕ) (a b c v : Expr)
        → filled (hand n k [] x (a ∷ b ∷ c ∷ v ∷ [])) CACHED_POST.now [] ≡ cached.post_text n k a b c v x }
    ensures creation { (n k b s l t x : ℕ) (a : Expr) (p q : Proc)
        → filled (hand n k (b ∷ s ∷ l ∷ t ∷ []) x (a ∷ [])) CACHED_CREATION.now (q ∷ p ∷ []) ≡ cached.agent_text n k a b s l t x p q }
    ensures main { (n s l t x : ℕ) (p : Proc)
        → filled (hand n 0 (l ∷ t ∷ []) x (site s ∷ [])) CACHED_MAIN.now (p ∷ []) ≡ cached.main_text n s l t x p }
{}
