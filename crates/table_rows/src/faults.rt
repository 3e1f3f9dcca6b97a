//! What the faults of tables and of variant graphs print.
use std::test::Fail;
use variant_list::{NetFault, ReversedFault};
use variant_table::TableFault;

#[test]
fn texts_of_faults_of_tables(rt: HostRuntime) -> Result<(), Fail> {
    let faults = [
        TableFault::Syntax { line: 1 },
        TableFault::SameSource { line: 1 },
        TableFault::SameVariant { line: 1 },
        TableFault::NoSuchName { line: 1 },
        TableFault::SameName { line: 1 },
        TableFault::BadClass { line: 1 },
        TableFault::Limit { line: 1 },
        TableFault::Memory,
    ];
    let mut texts = String::new(rt.alloc());
    for fault in faults {
        texts.push_str(&format!(in rt.alloc(); "{fault}\n")?)?;
    }
    assert_eq!(rt;
        texts.as_str(),
        "table syntax\nsource given twice\nvariant given twice\nname not defined\nname given twice\n\
         code point not allowed in a table\ntable limit\nout of memory\n"
    );
    Ok(())
}

#[test]
fn texts_of_faults_of_variant_graphs(rt: HostRuntime) -> Result<(), Fail> {
    let text = format!(in rt.alloc();
        "{}, {}, {}, {}",
        NetFault::NothingSpelled,
        NetFault::Memory,
        ReversedFault::TooManySources { entry: 0 },
        ReversedFault::Memory
    )?;
    assert_eq!(rt;
        text.as_str(),
        "nothing spelled, out of memory, too many sources, out of memory"
    );
    Ok(())
}
