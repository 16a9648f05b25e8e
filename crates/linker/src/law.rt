ghost use Rattle.linker.specs.Examples.{WorkedExamples};
ghost use Rattle.linker.specs.Graphs.{MarksWhatThePrototypeReaches, MarksWhatAChainLeadsFrom};
ghost use Rattle.linker.specs.Law.{OrdersAgree, OneMoreChangesLittle, LawOfHistories};
ghost use Rattle.linker.specs.Linking.{LinkTellsWhereReferencesLead};

/// Any two orders of adding the same trees, which keep grammars of equal scope or equal name in one order, give the same
/// answers, links, prototypes and flags, whatever the engine; and one accepted tree more changes only what the law names.
///
/// It does nothing: its caller has the law to hand on. `F` is the type of an engine's faults.
pub fn law_of_histories<F>()
    ensures law { LawOfHistories F }
    ensures examples { WorkedExamples }
{
    two_orders::<F>();
    one_more::<F>();
    links();
    prototypes();
    flags();
    examples();
}

fn two_orders<F>()
    ensures { OrdersAgree F }
{}

fn one_more<F>()
    ensures { OneMoreChangesLittle F }
{}

fn links()
    ensures { LinkTellsWhereReferencesLead }
{}

fn prototypes()
    ensures { MarksWhatThePrototypeReaches }
{}

fn flags()
    ensures { MarksWhatAChainLeadsFrom }
{}

fn examples()
    ensures { WorkedExamples }
{}
