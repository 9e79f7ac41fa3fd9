// A law that stands above the calls.
ghost use Rattle.text.specs.Laws.{ReadsBack};

// A list that is written is read as what it was written for. (The space in front of it belongs to the line.)
pub fn written_lists_are_read()
    ensures { ReadsBack }
{}
