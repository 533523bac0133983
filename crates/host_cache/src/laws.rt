ghost use Rattle.host_cache.specs.CacheLaws.{Written, Told, Dropped, Used, UsedAgain, Oldest, NoneOldest};

/// Laws of what a cache shows: what is read after a write, which byte pieces tell, what is shown after a token was
/// dropped, in which order tokens stand that were used, that this stays where the same needs are used again, and which
/// token is the oldest that isn't in use.
pub fn cache_law()
    ensures written { Written }
    ensures told { Told }
    ensures dropped { Dropped }
    ensures used { Used }
    ensures again { UsedAgain }
    ensures oldest { Oldest }
    ensures none { NoneOldest }
{}
