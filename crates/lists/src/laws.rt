ghost use Rattle.lists.specs.FirstFault.{NamesFirst};
ghost use Rattle.lists.specs.Laws.{ReadsBack, WrittenSo};

fn reads_back()
    ensures { ReadsBack }
{}

fn written_so()
    ensures { WrittenSo }
{}

fn names_first()
    ensures { NamesFirst }
{}

// Files and lists agree, of all files and lists: for proofs that make no call of read or write.
pub fn files_and_lists_agree()
    ensures back { ReadsBack }
    ensures so { WrittenSo }
    ensures first { NamesFirst }
{
    reads_back();
    written_so();
    names_first();
}
