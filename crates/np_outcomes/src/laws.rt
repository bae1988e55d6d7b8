ghost use Rattle.np_outcomes.specs.Laws.{Completes, CountsLong, CountsLongHistories, RefusesHistories, RefusesHistoriesOnce, RefusesLong};
ghost use Rattle.np_outcomes.specs.Laws.{RefusesLongHistories, RefusesOnce, RefusesSources, RefusesWords};

/// Where no read or write failed, and each text that is read is accepted, the status is 0 or 1, or 6 if memory ran out.
pub fn law_completes()
    ensures { Completes }
{
    np_sources::law_one_answer();
    np_histories::law_one_answer();
}

/// The status is 2 exactly where np does not take the command line.
pub fn law_refuses_words()
    ensures { RefusesWords }
{
    np_sources::law_one_answer();
    np_histories::law_one_answer();
}

/// A source is refused as TooLong exactly where it has more than 1,048,576 bytes.
pub fn law_refuses_long()
    ensures { RefusesLong }
{
    np_sources::law_one_answer();
    np_histories::law_one_answer();
}

/// A source that is read alone is refused as too long exactly where more was read of it than a source may have.
pub fn law_counts_long()
    ensures { CountsLong }
{
    np_sources::law_one_answer();
}

/// A source that is not too long gets a refusal exactly where its mode refuses it with that
/// refusal. Once it is accepted, its history may get another.
pub fn law_refuses_sources()
    ensures { RefusesSources }
{
    np_sources::law_one_answer();
    np_histories::law_one_answer();
}

/// A source that is too long, or that the mode refuses, has one refusal, with status 3.
pub fn law_refuses_once()
    ensures { RefusesOnce }
{
    np_sources::law_one_answer();
    np_histories::law_one_answer();
}

/// A history that is read is refused as TooLong exactly where it has more than 67,108,864 bytes.
pub fn law_refuses_long_histories()
    ensures { RefusesLongHistories }
{
    np_sources::law_one_answer();
}

/// A history that is read alone is refused as too long exactly where more was read of it than a history may have.
pub fn law_counts_long_histories()
    ensures { CountsLongHistories }
{}

/// A history that is read and is not too long gets a refusal exactly where it is no history, or of no run.
pub fn law_refuses_histories()
    ensures { RefusesHistories }
{
    np_sources::law_one_answer();
    np_histories::law_one_answer();
}

/// Such a history has one refusal, with status 7; or with status 3, where the sites could make too many events going on from it.
pub fn law_refuses_histories_once()
    ensures { RefusesHistoriesOnce }
{
    np_sources::law_one_answer();
    np_histories::law_one_answer();
}
