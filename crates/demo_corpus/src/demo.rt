//! The demonstration's program.

/// The program of the demonstration, each line with its LF: persons, organisations, dates, telephone
/// numbers and what stands between them, with all kinds of extractions, joins and groups.
pub const DEMO: &str = "\
create dictionary FirstNames as ('Ann','John','Maria','Paul');
create dictionary Titles as ('Dr','Mr','Mrs','Ms');
create dictionary Cities as ('New York','Paris','Rome');
create dictionary OrgEnds as ('Corp','Inc','Ltd');
create dictionary Roles as ('Chief Technology Officer','Engineer');
create dictionary Months as ('January','May','June');
create view First as extract dictionary 'FirstNames' on D.text as m from Document D;
create view FirstExact as extract dictionary 'FirstNames' with flags 'Exact' on D.text as m from Document D;
create view Title as extract dictionary 'Titles' on D.text as m from Document D;
create view City as extract dictionary 'Cities' on D.text as m from Document D;
create view OrgEnd as extract dictionary 'OrgEnds' on D.text as m from Document D;
create view Role as extract dictionary 'Roles' on D.text as m from Document D;
create view Month as extract dictionary 'Months' on D.text as m from Document D;
create view Caps as extract regex /[A-Z][a-z]+/ on 1 tokens in D.text as m from Document D;
create view CapsRun as extract regex /[A-Z][a-z]+( [A-Z][a-z]+)*/ on between 1 and 4 tokens in D.text as m from Document D;
create view Number as extract regex /[0-9]+/ on D.text as m from Document D;
create view Phone as extract regex /555-([0-9]{4})/ on D.text return group 0 as m and group 1 as tail from Document D;
create view Year as extract regex /(19|20)[0-9]{2}/ on 1 tokens in D.text as m from Document D;
create view FullName as select CombineSpans(F.m, C.m) as m from First F, Caps C where FollowsTok(F.m, C.m, 0, 0);
create view TitledName as select CombineSpans(T.m, R.m) as m from Title T, CapsRun R where FollowsTok(T.m, R.m, 0, 1);
create view AnyName as (select N.m from FullName N) union all (select N.m from TitledName N);
create view Person as select N.m from AnyName N consolidate on N.m;
create view LowerName as (select F.m from First F) minus (select F.m from FirstExact F);
create view Org as select CombineSpans(C.m, E.m) as m from Caps C, OrgEnd E where FollowsTok(C.m, E.m, 0, 0) consolidate on m using 'LeftToRight';
create view DayMonth as select CombineSpans(N.m, M.m) as m from Number N, Month M where FollowsTok(N.m, M.m, 0, 0);
create view Date as select CombineSpans(A.m, Y.m) as m from DayMonth A, Year Y where FollowsTok(A.m, Y.m, 0, 0);
create view DatePart as select N.m from Number N, Date A where Contains(A.m, N.m);
create view PlainNumber as (select N.m from Number N) minus (select P.m from DatePart P);
create view PersonPhone as select P.m as person, N.m as phone from Person P, Phone N where Follows(P.m, N.m, 0, 40);
create view PersonRole as select P.m as person, R.m as role from Person P, Role R where FollowsTok(P.m, R.m, 0, 2);
create view PersonCity as select P.m as person, C.m as city from Person P, City C where Follows(P.m, C.m, 0, 10);
create view PersonOrg as select P.m as person, O.m as org from Person P, Org O where Follows(P.m, O.m, 0, 10);
create view Digits as select GetText(N.m) as t, Count(*) as n from PlainNumber N group by GetText(N.m);
create view NumberRun as extract blocks with count between 2 and 3 and separation between 0 and 30 characters on N.m as m from Number N;
create view LongName as select P.m from Person P where GreaterThan(GetLength(P.m), 8);
create view FirstPerson as select P.m from Person P order by P.m limit 1;
output view Person;
output view PersonPhone;
output view PersonRole;
output view PersonCity;
output view PersonOrg;
output view Date;
output view Digits;
output view NumberRun;
output view LongName;
output view FirstPerson;
output view LowerName;
";
