// Laws of what pages say.
ghost use Rattle.disk_pages.specs.Laws.{
  FactsAreSound,
  RecordsAreSound,
  HeadersAreSound,
  HeadersChangeFormat,
};

/// What a page says is sound, so that it can be written: each server's page, each page of call numbers, and each
/// header, in format 2.
pub fn sound_law()
    ensures server { FactsAreSound }
    ensures numbers { RecordsAreSound }
    ensures headers { HeadersAreSound }
{}

/// Where a server's page of format 1 says format 2 from now on, and all else as before, the headers of its slots are
/// headers as before, and say what they said.
pub fn format_law()
    ensures { HeadersChangeFormat }
{}
